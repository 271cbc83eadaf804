//! Aborts.

use crate::entry::Class;
use rtm_codes::Code;

/// An abort that was posted to a unit at the entry `from` and has not landed yet.
#[derive(Clone, Copy, Debug, PartialEq, Eq)]
pub struct Abort {
    pub class: Class,
    pub from: u32,
    pub code: Code,
    pub reason: Option<u32>,
    /// A dump is asked for.
    pub dump: bool,
    /// A routine may retry.
    pub retry: bool,
    /// Routines with TERM=YES alone are eligible.
    pub term_only: bool,
}
