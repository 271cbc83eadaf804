//! The types of a deck may move to another thread.

use crate::{CardForm, Command, Deck, Line, Op, Program, Setrp, Unit, Why};

fn is_send<T: Send>() {}

#[test]
fn decks_may_move_to_another_thread() {
    is_send::<Deck>();
    is_send::<Program>();
    is_send::<Line>();
    is_send::<Op>();
    is_send::<Setrp>();
    is_send::<Unit>();
    is_send::<Command>();
    is_send::<CardForm>();
    is_send::<Why>();
}
