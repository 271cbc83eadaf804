//! The three laws of the machine together, and who keeps them: every legal history, and so each trace of a system, of a
//! region, and each that was judged to be one of the machine.
#![tactic(auto)]

pub mod laws;
