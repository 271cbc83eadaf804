//! Why an input can't be cut.

ghost use Rattle.std.specs.Prelude.{◌≡◌};
ghost use Rattle.rtm_cards.specs.declared.fault.CardFault.TheVariants.{Memory};

use std::alloc::{AllocError, AllocFailed};

/// Which rule of cutting is broken.
#[derive(Clone, Copy, Debug, PartialEq, Eq, Hash)]
pub enum CutWhy {
    /// The input has more than 16,777,216 bytes.
    TooLong,
    /// The input has more than 10,000 cards.
    OverLimit,
    /// A byte of the card isn't printable: it is none of 32 to 126.
    BadByte,
    /// The card has more than 80 bytes, a name field that is no name, or a name and no operation.
    BadCard,
}

/// The first fault of an input.
#[derive(Clone, Copy, Debug, PartialEq, Eq, Hash)]
pub struct CutFault {
    /// The number of the card, counted from 1 over all cards.
    pub card: u32,
    pub why: CutWhy,
}

/// Why no answer could be given.
#[derive(Clone, Copy, Debug, PartialEq, Eq, Hash)]
pub enum CardFault {
    /// Memory ran out.
    Memory,
}

impl From<AllocError> for CardFault {
    ghost from_gives = { λ _ fault. fault ≡ Memory };

    fn from(_error: AllocError) -> CardFault {
        CardFault::Memory
    }
}

impl<T: Drop> From<AllocFailed<T>> for CardFault {
    ghost from_gives = { λ _ fault. fault ≡ Memory };

    fn from(_error: AllocFailed<T>) -> CardFault {
        CardFault::Memory
    }
}
