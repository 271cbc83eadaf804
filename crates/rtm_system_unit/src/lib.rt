//! The control blocks of one unit of work: the entry that it makes next, and what an entry changes of it.
#![tactic(auto)]

mod apply;
mod cards;
mod here;
pub mod laws;
mod leave;
mod modes;
mod next;
mod own_card;
mod send;
#[cfg(test)]
mod tests;
mod unit_core;
mod unit_of_work;

pub use here::card_at;
pub use send::types_are_send;
pub use unit_of_work::UnitOfWork;
