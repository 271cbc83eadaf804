//! Which units live, who attached whom, and which events are posted.
#![tactic(auto)]

mod events;
mod not_dormant;
mod send;
mod task_tree;
#[cfg(test)]
mod tests;
mod unit_life;

pub use not_dormant::NotDormant;
pub use send::types_are_send;
pub use task_tree::TaskTree;
