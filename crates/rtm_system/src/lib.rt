//! The machine: runs a deck, one entry at a time, exactly as the definitions say.
#![tactic(auto)]

mod arrived;
mod next_entry;
mod same;
mod send;
mod stepped;
mod system;
mod turn;

pub use arrived::Arrived;
pub use send::types_are_send;
pub use stepped::Stepped;
pub use system::System;
