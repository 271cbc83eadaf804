//! An answer of the program.

use crate::status::Status;
use std::marker::Model;

/// A text that is to be written, and the status with which the program ends once it is. A contract sees the text as its
/// bytes.
#[derive(Drop)]
pub struct Answer {
    pub text: Vec<u8>,
    pub status: Status,
}

impl Model for Answer {
    ghost use Rattle.rtm_top_answers.specs.View.{AnswerView};

    ghost Value = { AnswerView };

    ghost view = { λ answer. record { text = answer.text.items; status = answer.status } };
}
