//! The request blocks of a unit: a list of brackets, each a list of blocks, with exact calls.
#![tactic(auto)]

mod block_list;
mod blocks;
mod send;
#[cfg(test)]
mod tests;

pub use blocks::Blocks;
pub use rtm_model::{Block, Full, Place};
pub use send::types_are_send;
