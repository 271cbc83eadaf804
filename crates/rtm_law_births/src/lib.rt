//! When each thing of the machine is born and when it dies, entry by entry, said beside the fold that makes the world.
#![tactic(auto)]

pub mod laws;
