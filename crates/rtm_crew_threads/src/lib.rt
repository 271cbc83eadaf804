//! Runs a deck on threads: a worker for each unit, and a lock round the region that they share.
#![tactic(auto)]

mod attending;
mod driving;
mod finishing;
mod gate;
mod pause;
mod running;
mod starts;
mod worker;

pub use driving::{drive, drive_by};
pub use gate::{Gate, OpenGate};
pub use starts::{EachStarts, Starts};
