//! Each type may move to another thread.

use crate::{Failed, InFault, MemSink, MemSource, RoomFault, StdSink, StdSource};

fn asks_send<T: Send>() {}

/// Nothing but the question, which the compiler answers: may each type move to another thread?
pub fn types_are_send() {
    asks_send::<Failed>();
    asks_send::<InFault>();
    asks_send::<RoomFault>();
    asks_send::<MemSource>();
    asks_send::<MemSink>();
    asks_send::<StdSource>();
    asks_send::<StdSink>();
}
