//! Aborts that were posted to a unit and have not landed, and whether one may land.
#![tactic(auto)]

mod interruption;
mod pending;
mod send;
#[cfg(test)]
mod tests;

pub use interruption::interruptible;
pub use pending::Pending;
pub use rtm_model::{Abort, Class, Fate};
pub use send::types_are_send;
