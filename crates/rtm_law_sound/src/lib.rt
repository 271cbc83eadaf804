//! What every legal history of the machine keeps: that its world is sound, that whatever may follow it can be applied,
//! that each of its prefixes is legal too, and that each of its entries fits the deck.
#![tactic(auto)]

pub mod laws;
