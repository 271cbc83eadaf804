//! Judges a history that somebody else made.
#![tactic(auto)]

mod judging;
mod laws;
mod send;

pub use judging::{JudgeFault, judge};
pub use laws::{answers_exclude_each_other, one_entry_is_the_first_illegal_one};
pub use send::types_are_send;

#[cfg(test)]
mod tests;
