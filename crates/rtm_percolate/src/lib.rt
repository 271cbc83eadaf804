//! The levels of a unit's errors: its brackets, the routines that run in them and their open errors, and which recovery
//! routine gets control next.
#![tactic(auto)]

mod bracket;
mod choice;
pub mod laws;
mod levels;
mod send;
#[cfg(test)]
mod tests;

pub use choice::Choice;
pub use levels::Levels;
pub use send::types_are_send;
