//! The canonical text of a deck: how it is written, and that it spells its deck with the fewest bytes.
#![tactic(auto)]

mod card;
mod laws;
mod op;
mod text;
mod value;

pub use laws::{canonical_text_spells_its_deck, no_spelling_is_shorter};
pub use text::deck_text;

#[cfg(test)]
mod tests;
