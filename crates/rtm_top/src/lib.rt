//! The top call: all that the program does, over a source and a sink.
#![tactic(auto)]

mod outcome;
mod request;
mod send;
mod top;
mod word;

pub use outcome::Outcome;
pub use request::{Request, request_of};
pub use rtm_top_answers::Status;
pub use send::types_are_send;
pub use top::{or_memory, plain_words, too_long_answer, write_answer};
pub use word::RtmWord;
