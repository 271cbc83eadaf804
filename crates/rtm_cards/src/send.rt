//! Each type may move to another thread.

use crate::{Card, CardFault, Cut, CutFault, CutWhy, Span};

fn asks_send<T: Send>() {}

/// Nothing but the question, which the compiler answers: may each type move to another thread?
pub fn types_are_send() {
    asks_send::<Card>();
    asks_send::<CardFault>();
    asks_send::<Cut>();
    asks_send::<CutFault>();
    asks_send::<CutWhy>();
    asks_send::<Span>();
}
