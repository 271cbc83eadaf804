//! Making the deck.

ghost use Rattle.std.specs.Prelude.{◌≡◌, ◌≤◌, IfOk};
ghost use Rattle.rtm_deck_load.specs.Deck.{load_deck};

use crate::text::load_text;
use rtm_codes::NoMemory;
use rtm_deck::{Deck, DeckFault, read_deck};
use std::alloc::Global;

/// The deck of the word `load`, with 1 to 60 tasks beside the job step task (this profile).
///
/// Each of the tasks makes a recovery routine, calls a program that ends abnormally, and is retried behind the call,
/// forty times; then it ends abnormally itself. The only error is want of memory.
pub fn load_deck(alloc: Global, tasks: u8) -> Result<Deck, NoMemory>
    requires least { 1 ≤ tasks }
    requires most { tasks ≤ 60 }
    ensures { IfOk result (λ deck. deck ≡ load_deck tasks) }
{
    let text = load_text(alloc, tasks)?;
    match read_deck(alloc, &text) {
        Ok(deck) => Ok(deck),
        Err(DeckFault::Memory) => Err(NoMemory),
        Err(DeckFault::Refused { .. }) => unreachable!("the text spells a deck"),
    }
}
