//! Each type may move to another thread.

use crate::{Board, ConsoleSeat, Note, Notes, Posted, UnitSeat};

fn asks_send<T: Send>() {}

/// Nothing but the question, which the compiler answers: may each type move to another thread?
pub fn types_are_send() {
    asks_send::<Board>();
    asks_send::<ConsoleSeat>();
    asks_send::<Note>();
    asks_send::<Notes>();
    asks_send::<Posted>();
    asks_send::<UnitSeat>();
}
