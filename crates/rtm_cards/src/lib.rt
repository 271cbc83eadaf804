//! Cuts a deck into its cards, and names the first card that can't be one.
//!
//! What `cut_cards` answers is said on lists of bytes alone: a crate above works on the numbers and
//! the texts of cards, and reaches into the input by `Span` only to read them.
#![tactic(auto)]

mod card;
mod cut;
mod fault;
mod fields;
mod input;
mod laws;
mod limits;
mod lines;
mod name;
mod operands;
mod rules;
mod scan;
mod span;

pub use card::Card;
pub use cut::{Cut, cut_cards};
pub use fault::{CardFault, CutFault, CutWhy};
pub use input::split;
pub use laws::{each_input_has_one_first_fault, fields_spell_their_card, lines_spell_their_input};
pub use limits::{
    DEFAULT_ENTRIES, MOST_BYTES, MOST_CARD_BYTES, MOST_CARDS, MOST_COMMANDS, MOST_ENTRIES,
    MOST_PROGRAMS, MOST_UNITS,
};
pub use name::is_name;
pub use send::types_are_send;
pub use span::Span;

#[cfg(test)]
mod input_tests;
mod send;
#[cfg(test)]
mod tests;
