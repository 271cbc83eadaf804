//! The record of an error.

use rtm_codes::Code;
use rtm_deck_items::Name;

/// The ten flags of an error's record (this profile, after the SDWA of MVS Data Areas).
#[derive(Clone, Copy, Debug, PartialEq, Eq)]
pub struct RecordFlags {
    /// No retry.
    pub clup: bool,
    /// A routine has percolated.
    pub perc: bool,
    /// A routine has failed.
    pub staf: bool,
    /// The job step is to end.
    pub step: bool,
    /// There is a reason code.
    pub reason: bool,
    /// Routines with TERM=YES alone are eligible.
    pub term_only: bool,
    /// A dump is asked for.
    pub dump: bool,
    /// The routine is to be removed at a retry.
    pub remrec: bool,
    /// The record is to be logged.
    pub logrec: bool,
    /// The record's storage is to be freed.
    pub fresdwa: bool,
}

/// The record of an error: what the SDWA holds (Authorized Assembler Services Guide, "Providing recovery").
#[derive(Clone, Copy, Debug, PartialEq, Eq)]
pub struct ErrorRecord {
    pub code: Code,
    /// The code that the error began with.
    pub first: Code,
    pub reason: Option<u32>,
    pub flags: RecordFlags,
    /// What SETRP asked for: 0 percolate, 4 retry, 16 stop.
    pub rc: u8,
    /// The label of the retry.
    pub retaddr: Option<Name>,
}
