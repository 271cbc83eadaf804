//! What an entry shows of a record.

use rtm_codes::Code;

/// What an entry shows of an error's record.
#[derive(Clone, Copy, Debug, PartialEq, Eq)]
pub struct Mark {
    pub code: Code,
    pub reason: Option<u32>,
    /// No retry.
    pub clup: bool,
    /// An earlier routine has percolated.
    pub perc: bool,
    /// An earlier routine has failed.
    pub staf: bool,
}
