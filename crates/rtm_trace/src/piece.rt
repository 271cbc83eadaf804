//! Short texts that are put whole. A copy of a constant number of bytes is a few instructions, and one of a number that
//! is known only then is a call. So all the room of a piece is put, and what is beyond its text is cut off again.

ghost use Rattle.std.specs.Prelude.{◌≡◌, ◌++◌, ◌-◌, ◌<◌, ◌≤◌, [], ◌∷◌, length, take, OnOk};

use rtm_codes::NoMemory;
use std::marker::Model;

// Room for the digits of a number of 64 bits, and for a name with a word.
const ROOM: usize = 24;

/// A text of at most 24 bytes.
#[derive(Drop)]
pub(crate) struct Piece {
    bytes: [u8; ROOM],
    len: usize,
}

impl Model for Piece {
    ghost use Rattle.std.specs.Prelude.{ℕ, List, ◌≤◌, take};

    ghost Value = { List ℕ };

    ghost view = { λ a. take a.len a.bytes };

    ghost invariant = { λ a. a.len ≤ 24 };
}

impl Piece {
    /// The text.
    pub(crate) fn of(text: &[u8]) -> Piece
        requires { length text.now ≤ 24 }
        ensures { result ≡ text.now }
    {
        let mut bytes = [0; ROOM];
        bytes[..text.len()].copy_from_slice(text);
        Piece {
            bytes,
            len: text.len(),
        }
    }

    /// Puts the text. The only error is want of memory.
    #[inline(always)]
    #[tactic(auto, using(crate::proofs::Pieces::put_whole))]
    pub(crate) fn put(&self, out: &mut Vec<u8>) -> Result<(), NoMemory>
        ensures { OnOk result (out.new.items ≡ out.old.items ++ self.now) }
    {
        let before = out.len();
        out.extend_from_slice(&self.bytes)?;
        out.truncate(before + self.len);
        Ok(())
    }

    /// Puts another byte in the place of the last.
    #[inline(always)]
    #[tactic(auto, using(crate::proofs::Pieces::last_set))]
    pub(crate) fn set_last(&mut self, byte: u8)
        requires { 0 < length self.old }
        ensures { self.new ≡ take (length self.old - 1) self.old ++ byte ∷ [] }
    {
        self.bytes[self.len - 1] = byte;
    }
}
