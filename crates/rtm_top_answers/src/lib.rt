//! What is to be written for the bytes that were read, word by word: one answer, a text with its status.
#![tactic(auto)]

mod answer;
mod load;
mod refusals;
mod run;
mod scan;
mod send;
mod status;
mod verify;

pub use answer::Answer;
pub use load::load_answer;
pub use refusals::refusal;
pub use run::{seq_answer, traced_answer};
pub use scan::scan_answer;
pub use send::types_are_send;
pub use status::Status;
pub use verify::verify_answer;
