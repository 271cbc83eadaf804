//! The entries of a trace.

use crate::block::Place;
use crate::mark::Mark;
use crate::reg::Kind;
use rtm_codes::Code;
use rtm_deck_items::Res;

/// The class of an abort that comes from outside of the unit (this profile).
#[derive(Clone, Copy, Debug, PartialEq, Eq)]
pub enum Class {
    Cancel,
    Detach,
    Mother,
    Step,
    Abterm,
    Srb,
}

/// What becomes of an abort that is posted.
#[derive(Clone, Copy, Debug, PartialEq, Eq)]
pub enum Fate {
    Queued,
    Merged,
    Late,
}

/// What a routine's end means for the error that it was entered for.
#[derive(Clone, Copy, Debug, PartialEq, Eq)]
pub enum Verdict {
    Retry(Place),
    Perc,
    Stop,
    Bad,
    Fail,
    Over,
}

/// How a history ends.
#[derive(Clone, Copy, Debug, PartialEq, Eq)]
pub enum End {
    Ended,
    Stalled,
    Limit,
}

/// What an entry says. An index (`from`, `reg`) is that of an entry of the history, from 0.
#[derive(Clone, Copy, Debug, PartialEq, Eq)]
pub enum What {
    /// A card was executed, with its return code.
    Exec {
        at: Place,
        rc: u8,
    },
    /// A card met with an error.
    Error {
        at: Place,
        mark: Mark,
    },
    /// An abort that was posted at the entry `from` becomes an error of the unit.
    Land {
        class: Class,
        from: u32,
        mark: Mark,
    },
    /// The routine that was born at the entry `reg` gets control; a bare one gets no SDWA.
    Enter {
        kind: Kind,
        reg: u32,
        mark: Mark,
        bare: bool,
    },
    /// It has ended.
    Leave {
        kind: Kind,
        reg: u32,
        verdict: Verdict,
        logrec: bool,
        dump: bool,
    },
    /// The operator's command of that number arrives.
    Arrive {
        cmd: u8,
        fate: Fate,
    },
    /// The unit begins to end.
    Begin {
        code: Code,
        dump: bool,
    },
    /// A resource that the unit `owner` held is released.
    Release {
        class: Res,
        id: u32,
        owner: u16,
    },
    /// The unit has ended; aborts that this posts to the related task and to the job step task.
    Done {
        code: Code,
        to_task: Option<Fate>,
        to_step: Option<Fate>,
    },
    /// Memory end takes a unit away.
    Purge {
        unit: u16,
    },
    /// The address space has ended.
    MemEnd,
}

/// An entry of a history. The master unit's number is the number of units.
#[derive(Clone, Copy, Debug, PartialEq, Eq)]
pub struct Entry {
    pub unit: u16,
    pub what: What,
}
