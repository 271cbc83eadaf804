//! Locks may be shared among threads.

use crate::{Hold, Keyed, Lock};

fn asks_send<T: Send>() {}

fn asks_sync<T: Sync>() {}

/// Nothing but the question, which the compiler answers: may a lock be shared by threads, where its value may move to
/// another thread?
pub fn locks_are_shared<T: Keyed<K> + Drop + Send, K>() {
    asks_send::<Lock<T, K>>();
    asks_sync::<Lock<T, K>>();
    asks_send::<Hold<T, K>>();
}
