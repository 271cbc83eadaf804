//! The deck of the word `load`, a deck for measuring, of which each task ends abnormally and is retried many times.
#![tactic(auto)]

mod deck;
mod laws;
mod text;

pub use deck::load_deck;
pub use laws::load_text_spells_load_deck;

#[cfg(test)]
mod tests;
