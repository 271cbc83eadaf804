//! What the definitions of a deck's spelling and of its first fault come to, said of the definitions alone: no reader
//! of decks is known here.
#![tactic(auto)]

mod laws;

pub use laws::{no_deck_with_a_fault, one_deck_for_one_input, one_first_fault};
