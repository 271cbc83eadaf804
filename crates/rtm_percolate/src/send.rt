//! Each type may move to another thread.

use crate::{Choice, Levels};

fn asks_send<T: Send>() {}

/// Nothing but the question, which the compiler answers: may each type move to another thread?
pub fn types_are_send() {
    asks_send::<Choice>();
    asks_send::<Levels>();
}
