//! What a unit or the address space holds is freed or released at most once, and nothing is held past the end.
#![tactic(auto)]

pub mod laws;
