//! What a deck is: its programs, units and commands, the forms of the cards that say them, and the definitions of the
//! bytes that spell a deck and of the first fault of those that don't.
#![tactic(auto)]

mod deck;
mod form;
mod op;
mod table;
mod why;

pub use deck::{Command, Deck, Line, Program, Unit, UnitKind};
pub use form::{CardForm, NameField};
pub use op::{Op, Setrp};
pub use rtm_deck_operands::{Name, Res, Three};
pub use table::all_forms;
pub use why::Why;

#[cfg(test)]
mod tests;
