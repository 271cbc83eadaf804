//! The operator's board: a word of posted commands for each unit, the seats from which it is written and read, and
//! the notes that come out of it.
#![tactic(auto)]

mod bits;
mod board;
mod notes;
mod operator;
mod seats;
mod send;
#[cfg(test)]
mod tests;

pub use board::{Board, Posted};
pub use notes::{Note, Notes};
pub use operator::all_notes;
pub use seats::{ConsoleSeat, UnitSeat};
pub use send::types_are_send;
