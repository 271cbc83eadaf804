//! Aborts of legal histories: each lands at most once, where its unit may be interrupted, and no retry follows one
//! that forbids it.
#![tactic(auto)]

pub mod laws;
