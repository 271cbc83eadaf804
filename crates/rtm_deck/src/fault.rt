//! Why no deck was read.

ghost use Rattle.std.specs.Prelude.{◌≡◌};
ghost use Rattle.rtm_deck.specs.declared.fault.DeckFault.TheVariants.{Memory};

use rtm_cards::CardFault;
use rtm_codes::NoMemory;
use rtm_deck_items::Why;
use std::alloc::{AllocError, AllocFailed};

/// Why no deck was read.
#[derive(Clone, Copy, Debug, PartialEq, Eq)]
pub enum DeckFault {
    /// Memory ran out.
    Memory,
    /// The number of the card, counted from 1 over all cards, and what is wrong with it.
    Refused { card: u32, why: Why },
}

impl From<AllocError> for DeckFault {
    ghost from_gives = { λ _ fault. fault ≡ Memory };

    fn from(_error: AllocError) -> DeckFault {
        DeckFault::Memory
    }
}

impl<T: Drop> From<AllocFailed<T>> for DeckFault {
    ghost from_gives = { λ _ fault. fault ≡ Memory };

    fn from(_error: AllocFailed<T>) -> DeckFault {
        DeckFault::Memory
    }
}

impl From<CardFault> for DeckFault {
    ghost from_gives = { λ _ fault. fault ≡ Memory };

    fn from(_error: CardFault) -> DeckFault {
        DeckFault::Memory
    }
}

impl From<NoMemory> for DeckFault {
    ghost from_gives = { λ _ fault. fault ≡ Memory };

    fn from(_error: NoMemory) -> DeckFault {
        DeckFault::Memory
    }
}
