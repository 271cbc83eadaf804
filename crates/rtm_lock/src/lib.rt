//! A lock for threads: the value that it keeps belongs to the key that the lock was made with, whoever takes it out.
#![tactic(auto)]

mod lock;
mod rule;
mod send;
#[cfg(test)]
mod tests;

pub use lock::{Hold, Lock};
pub use rule::Keyed;
pub use send::locks_are_shared;
