//! Each type may move to another thread.

use crate::{Empty, EstaeChain, EstaiList, FrrStack, NotOwned};

fn asks_send<T: Send>() {}

/// Nothing but the question, which the compiler answers: may each type move to another thread?
pub fn types_are_send() {
    asks_send::<Empty>();
    asks_send::<EstaeChain>();
    asks_send::<EstaiList>();
    asks_send::<FrrStack>();
    asks_send::<NotOwned>();
}
