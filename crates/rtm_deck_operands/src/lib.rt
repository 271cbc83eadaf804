//! The operands of a card, read and written by a table of slots.
//!
//! A table says which operands an operation takes. What is here knows no operation: it reads the operands of any card
//! by the table that it is given, in any order that the table allows, and writes the one canonical spelling.
#![tactic(auto)]

pub mod laws;
mod name;
mod part;
mod read;
mod read_value;
mod send;
mod slot;
mod value;
mod write;
mod write_value;

pub use name::{Name, name_of};
pub use read::{Values, read_operands};
pub use send::types_are_send;
pub use slot::{Kind, LeftOut, MOST_SLOTS, NameOf, Slot};
pub use value::{Res, Three, Value};
pub use write::push_operands;
pub use write_value::push_name;

#[cfg(test)]
mod tests;
