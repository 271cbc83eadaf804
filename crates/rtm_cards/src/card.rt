//! A card of a deck.

use crate::span::Span;
use std::marker::Model;

/// A card that is neither a comment nor blank. Its spans are of the bytes that it was cut from.
#[derive(Debug, Drop)]
pub struct Card {
    /// The number of the card, counted from 1 over all cards of the input.
    pub number: u32,
    /// The name field, with no bytes where the card has no name.
    pub name: Span,
    /// The operation, which has bytes.
    pub op: Span,
    /// The parts of the operand field between its commas, some of them perhaps with no bytes; none
    /// where the card has no operand field.
    pub operands: Vec<Span>,
}

impl Model for Card {
    ghost use Rattle.rtm_cards.specs.View.{CardSpans};

    ghost Value = { CardSpans };

    ghost view = { λ a. record { number = a.number; name = a.name; op = a.op; operands = a.operands.items } };
}
