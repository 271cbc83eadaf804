//! What a card does.

use rtm_codes::Code;

/// What the card at a unit's place does.
#[derive(Clone, Copy, Debug, PartialEq, Eq)]
pub enum Outcome {
    /// It is executed, with its return code.
    Executed {
        rc: u8,
    },
    /// It meets with an error. A dump is asked for, and the job step is to end, by an ABEND alone.
    Abends {
        code: Code,
        reason: Option<u32>,
        dump: bool,
        step: bool,
    },
    /// It waits, and makes no entry.
    Waits,
    /// It returns from the only request block of its bracket.
    Returns,
}
