//! Each type may move to another thread.

use crate::{Desks, Manager, MemManager};

fn asks_send<T: Send>() {}

/// Nothing but the question, which the compiler answers: may each type move to another thread?
pub fn types_are_send() {
    asks_send::<MemManager>();
    asks_send::<Desks<MemManager>>();
}

/// The same of the desks of any managers that may move to another thread, as boxed ones.
pub fn desks_are_send<M: Manager + Send>() {
    asks_send::<Desks<M>>();
}
