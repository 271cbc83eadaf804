//! What lives of a deck that runs: the control blocks of each unit, and what units share. It answers what a unit makes
//! next and which commands may arrive, and carries an entry out, each exactly as the definitions say.
#![tactic(auto)]

mod apply;
mod arrivals;
mod beyond;
mod glance;
mod needs;
mod next_entry;
mod posted;
mod send;
mod surroundings;
mod units;
mod world;

pub use glance::Glance;
pub use send::types_are_send;
pub use world::World;
