//! Sources and sinks of bytes: reading one whole, within a limit, and writing one whole.
#![tactic(auto)]

mod calls;
mod failed;
mod input;
mod mem_sink;
mod mem_source;
mod output;
mod send;
mod sink;
mod source;
mod std_sink;
mod std_source;

pub use failed::Failed;
pub use input::{InFault, read_all};
pub use mem_sink::{MemSink, RoomFault};
pub use mem_source::MemSource;
pub use output::write_all;
pub use send::types_are_send;
pub use sink::Sink;
pub use source::Source;
pub use std_sink::StdSink;
pub use std_source::StdSource;

#[cfg(test)]
mod tests;
