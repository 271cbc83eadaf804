//! What units hold, the resource managers, and what comes next when a unit or the address space ends.
#![tactic(auto)]

mod act;
mod class_list;
mod holds;
mod managers;
mod owner_lists;
mod refused;
mod send;
#[cfg(test)]
mod tests;

pub use act::{Act, next_act};
pub use holds::Holds;
pub use managers::Managers;
pub use refused::{NotFound, NotHeld};
pub use rtm_model::{Full, Holding, Manager1, Res};
pub use send::types_are_send;
