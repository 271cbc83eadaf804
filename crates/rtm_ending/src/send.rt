//! Each type may move to another thread.

use crate::{Act, Holds, Managers, NotFound, NotHeld};

fn asks_send<T: Send>() {}

/// Nothing but the question, which the compiler answers: may each type move to another thread?
pub fn types_are_send() {
    asks_send::<Act>();
    asks_send::<Holds>();
    asks_send::<Managers>();
    asks_send::<NotFound>();
    asks_send::<NotHeld>();
}
