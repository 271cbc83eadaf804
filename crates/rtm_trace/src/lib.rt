//! The text of a recovery trace, format 1, and its reader.
#![tactic(auto)]

mod entry_line;
mod fault;
mod fit;
mod form;
mod index;
mod known;
mod labels;
mod laws;
mod names;
mod piece;
pub mod push;
mod read;
mod send;
mod table;
mod text;
mod word;

pub use fault::TraceFault;
pub use laws::{each_input_is_a_trace_or_has_a_bad_line, lines_are_short, texts_are_one_to_one};
pub use read::read_trace;
pub use send::types_are_send;
pub use text::{end_word, push_entry, trace_text};
