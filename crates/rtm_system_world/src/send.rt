//! The one type may move to another thread.

use crate::World;

fn asks_send<T: Send>() {}

/// Nothing but the question, which the compiler answers: may the type move to another thread?
pub fn types_are_send() {
    asks_send::<World>();
}
