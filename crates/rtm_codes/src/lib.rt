//! Completion codes of abends, with their texts on cards and in traces and their words in records.
#![tactic(auto)]

mod code;
pub mod laws;
mod send;
mod text;
mod word;

pub use code::{Code, is_in_range};
pub use rtm_text::NoMemory;
pub use send::types_are_send;
pub use text::{code_short, code_text, read_code};
pub use word::{packed, unpacked};

#[cfg(test)]
mod tests;
