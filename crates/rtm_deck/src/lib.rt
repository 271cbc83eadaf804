//! Reads a deck from its cards, or names its first fault.
#![tactic(auto)]

mod build;
mod card;
mod fault;
mod find;
mod laws;
mod operation;
mod reading;
mod role;
mod seen;

pub use fault::DeckFault;
pub use laws::{canonical_texts_are_read_back, each_input_is_a_deck_or_has_a_fault};
pub use reading::read_deck;
pub use rtm_deck_canon::deck_text;
pub use rtm_deck_items::{
    CardForm, Command, Deck, Line, Name, Op, Program, Res, Setrp, Three, Unit, UnitKind, Why,
};

#[cfg(test)]
mod tests;
