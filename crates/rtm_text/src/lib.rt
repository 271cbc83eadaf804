//! Text: bytes, digits and blanks, read and written. What is here knows nothing of decks and traces.
#![tactic(auto)]

mod bytes;
mod digits;
mod no_memory;
mod scan;
mod send;

pub use bytes::push_bytes;
pub use digits::{character, number_in, push_decimal, push_hexadecimal};
pub use no_memory::NoMemory;
pub use scan::{before, behind_blanks, count_blanks, find, from_first};
pub use send::types_are_send;

#[cfg(test)]
mod tests;
