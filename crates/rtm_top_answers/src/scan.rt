//! What is written under `scan`.

ghost use Rattle.std.specs.Prelude.{◌≡◌, IfOk};
ghost use Rattle.rtm_top_answers.specs.Scan.{IsScanAnswer, canonical};

use crate::answer::Answer;
use crate::refusals::refusal;
use crate::status::Status;
use rtm_codes::NoMemory;
use rtm_deck::{DeckFault, deck_text, read_deck};
use rtm_deck_items::Deck;
use std::alloc::Global;

// The canonical text of a deck.
fn canonical(alloc: Global, deck: &Deck) -> Result<Answer, NoMemory>
    ensures { IfOk result (λ answer. answer ≡ canonical deck.now) }
{
    Ok(Answer {
        text: deck_text(alloc, deck)?,
        status: Status::Fine,
    })
}

/// What is to be written for the bytes of a deck under the word `scan`: its canonical text, or its first fault.
#[tactic(auto, using(crate::proofs::Answers::scanned_deck, crate::proofs::Answers::scanned_fault))]
pub fn scan_answer(alloc: Global, bytes: &[u8]) -> Result<Answer, NoMemory>
    ensures { IfOk result (IsScanAnswer bytes.now) }
{
    match read_deck(alloc, bytes) {
        Ok(deck) => canonical(alloc, &deck),
        Err(DeckFault::Memory) => Err(NoMemory),
        Err(DeckFault::Refused { card, why }) => refusal(alloc, card, why),
    }
}
