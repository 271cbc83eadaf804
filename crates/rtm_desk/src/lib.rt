//! Resource managers that are told of each release of a run, each of those of its class, and the desks that have one
//! for each class.
#![tactic(auto)]

mod desks;
pub mod laws;
mod manager;
mod mem_manager;
mod send;
#[cfg(test)]
mod tests;

pub use desks::Desks;
pub use manager::Manager;
pub use mem_manager::MemManager;
pub use send::{desks_are_send, types_are_send};
