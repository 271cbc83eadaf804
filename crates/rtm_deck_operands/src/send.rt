//! Each type may move to another thread.

use crate::{Kind, LeftOut, Name, NameOf, Res, Slot, Three, Value, Values};

fn asks_send<T: Send>() {}

/// Nothing but the question, which the compiler answers: may each type move to another thread?
pub fn types_are_send() {
    asks_send::<Kind>();
    asks_send::<LeftOut>();
    asks_send::<Name>();
    asks_send::<NameOf>();
    asks_send::<Res>();
    asks_send::<Slot>();
    asks_send::<Three>();
    asks_send::<Value>();
    asks_send::<Values>();
}
