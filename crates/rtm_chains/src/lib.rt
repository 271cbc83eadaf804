//! The recovery routines of a unit: its stack of FRRs, its chain of ESTAE routines and its list of ESTAI routines.
#![tactic(auto)]

mod estae_chain;
mod estai_list;
mod frr_stack;
mod refused;
mod routine;
mod send;
#[cfg(test)]
mod tests;

pub use estae_chain::EstaeChain;
pub use estai_list::EstaiList;
pub use frr_stack::FrrStack;
pub use refused::{Empty, NotOwned};
pub use rtm_model::{Full, Kind, Reg};
pub use send::types_are_send;
