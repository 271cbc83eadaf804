//! How a call of the program went.

use rtm_model::End;

/// How a call of the program went (this profile). The number of each is that of `exit_status`.
#[derive(Clone, Copy, Debug, PartialEq, Eq)]
pub enum Status {
    /// All was written, and the run ended with the address space.
    Fine,
    /// All was written, and the run ended where no unit could go on.
    Stalled,
    /// All was written, and the run ended at the limit of entries.
    AtLimit,
    /// The deck was refused, and the refusal was written.
    Deck,
    /// The trace has a line that isn't as a trace's line is written.
    Line,
    /// The trace isn't a legal history.
    NotLegal,
    /// The trace has another end.
    WrongEnd,
    /// Memory was refused. Nothing was written.
    Memory,
    /// The source failed. Nothing was written.
    Read,
    /// The sink failed. A prefix of the text stands written.
    Write,
    /// The words are none that the program knows. Nothing was read, and nothing was written.
    Words,
}

impl Status {
    ghost use Rattle.std.specs.Prelude.{◌≡◌};
    ghost use Rattle.rtm_top_answers.specs.Status.{status_number, status_of};

    /// The number with which the program ends, 0 to 20.
    pub fn exit_status(self) -> u8
        ensures { result ≡ status_number self }
    {
        match self {
            Status::Fine => 0,
            Status::Stalled => 4,
            Status::AtLimit => 6,
            Status::Deck => 8,
            Status::Line => 9,
            Status::NotLegal => 10,
            Status::WrongEnd => 11,
            Status::Memory => 12,
            Status::Read => 16,
            Status::Write => 17,
            Status::Words => 20,
        }
    }

    /// The status of a history that was written, by its end.
    pub fn of_end(end: End) -> Status
        ensures { result ≡ status_of end }
    {
        match end {
            End::Ended => Status::Fine,
            End::Stalled => Status::Stalled,
            End::Limit => Status::AtLimit,
        }
    }
}
