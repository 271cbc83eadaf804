//! The law of chains: which routines an error enters, in which order, and how it ends.
#![tactic(auto)]

pub mod laws;
