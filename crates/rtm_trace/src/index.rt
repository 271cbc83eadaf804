//! The index of a line, counted up in digits.

ghost use Rattle.std.specs.Prelude.{◌≡◌, ◌++◌, ◌+◌, ◌<◌, decimal, OnOk};

use crate::piece::Piece;
use itoa::Buffer;
use rtm_codes::NoMemory;
use std::marker::Model;

/// A number with its digits.
#[derive(Drop)]
pub(crate) struct Index {
    number: u64,
    digits: Piece,
}

impl Model for Index {
    ghost use Rattle.std.specs.Prelude.{◌≡◌, ℕ, decimal};

    ghost Value = { ℕ };

    ghost view = { λ a. a.number };

    ghost invariant = { λ a. a.digits ≡ decimal a.number };
}

impl Index {
    /// The first.
    #[tactic(auto, using(crate::proofs::Pieces::decimal_zero))]
    pub(crate) fn first() -> Index
        ensures { result ≡ 0 }
    {
        Index {
            number: 0,
            digits: Piece::of(b"0"),
        }
    }

    /// Puts the digits. The only error is want of memory.
    #[inline(always)]
    pub(crate) fn put(&self, out: &mut Vec<u8>) -> Result<(), NoMemory>
        ensures { OnOk result (out.new.items ≡ out.old.items ++ decimal self.now) }
    {
        self.digits.put(out)
    }

    /// The next one. Nine times in ten another last digit makes it.
    #[inline(always)]
    #[tactic(auto, using(crate::proofs::Pieces::next_digits, crate::proofs::Pieces::some_digits))]
    pub(crate) fn count_up(&mut self)
        requires { self.old < 18446744073709551615 }
        ensures { self.new ≡ self.old + 1 }
    {
        self.number += 1;
        let last = self.number % 10;
        if last == 0 {
            self.digits = digits_of(self.number);
        } else {
            self.digits.set_last(b'0' + last as u8);
        }
    }
}

#[inline(never)]
#[tactic(auto, using(crate::proofs::Pieces::few_digits))]
fn digits_of(number: u64) -> Piece
    ensures { result ≡ decimal number }
{
    let mut buffer = Buffer::new();
    Piece::of(buffer.format(number).as_bytes())
}
