//! What the history of a single thread is: it is legal, it has an end, and each of its entries is the one whose
//! turn it was.
#![tactic(auto)]

pub mod laws;
