//! The words that the program is given.

use std::marker::Model;

/// A word that the program was given. A contract sees its bytes.
#[derive(Drop)]
pub struct RtmWord {
    pub text: String,
}

impl Model for RtmWord {
    ghost use Rattle.std.specs.Prelude.{ℕ, List, string_bytes};

    ghost Value = { List ℕ };

    ghost view = { λ word. string_bytes word.text };
}
