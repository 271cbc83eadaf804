//! The top call: all that the program does, over a source, a sink, managers and a gate, on threads where it is to.
#![tactic(auto)]

mod run;
mod words;

pub use words::rtm_words;
