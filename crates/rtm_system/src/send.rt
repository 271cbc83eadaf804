//! Each type may move to another thread.

use crate::{Arrived, Stepped, System};

fn asks_send<T: Send>() {}

/// Nothing but the question, which the compiler answers: may each type move to another thread?
pub fn types_are_send() {
    asks_send::<Arrived>();
    asks_send::<Stepped>();
    asks_send::<System>();
}
