//! Each type may move to another thread.

use crate::{NoRun, Region};
use rtm_desk::Manager;

fn asks_send<T: Send>() {}

/// Nothing but the question, which the compiler answers: may a region move to another thread where its managers may,
/// as boxed ones do?
pub fn regions_are_send<M: Manager + Send>() {
    asks_send::<Region<M>>();
    asks_send::<NoRun<M>>();
}
