//! Each type that can be asked may move to another thread.

use crate::RtmWord;

fn asks_send<T: Send>() {}

/// Nothing but the question, which the compiler answers: may a word move to another thread? (An outcome holds boxes, of
/// which the question can't be asked; their type itself says that they may.)
pub fn types_are_send() {
    asks_send::<RtmWord>();
}
