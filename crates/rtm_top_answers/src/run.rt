//! What is written of a deck that is run, and of one that is run on one thread.

ghost use Rattle.std.specs.Prelude.{◌≡◌, ◌⊎◌, [], IfErr, IfOk};
ghost use Rattle.rtm_crew.specs.Histories.{in_turns};
ghost use Rattle.rtm_desk.specs.Told.{told_by, told_to};
ghost use Rattle.rtm_top_answers.specs.Run.{AreToldOfRunIn, AreToldOfRunOrNothing, IsRunAnswer, IsRunIn, traced_answer};

use crate::answer::Answer;
use crate::refusals::refusal;
use crate::status::Status;
use rtm_codes::NoMemory;
use rtm_crew::{NoRun, run_with};
use rtm_deck::{DeckFault, read_deck};
use rtm_deck_items::Deck;
use rtm_desk::Manager;
use rtm_model::End;
use rtm_system::System;
use rtm_trace::trace_text;
use std::alloc::Global;

/// What is to be written of a system that has run to this end: its trace.
pub fn traced_answer(alloc: Global, system: &System, end: End) -> Result<Answer, NoMemory>
    ensures { IfOk result (λ answer. answer ≡ traced_answer system.now.deck system.now.trace end) }
{
    Ok(Answer {
        text: trace_text(alloc, system.deck(), system.trace(), end)?,
        status: Status::of_end(end),
    })
}

// What is written of a deck that is run on one thread, and the managers, told of its releases. Where memory is wanting before the
// first entry they were told nothing, and where the text can't be made they were told of all.
#[tactic(auto, using(crate::proofs::Answers::run_in, crate::proofs::Answers::told_all, crate::proofs::Answers::told_none))]
fn deck_answer<M: Manager>(
    alloc: Global,
    deck: Deck,
    managers: Vec<M>,
) -> (Result<Answer, NoMemory>, Vec<M>)
    requires { told_to M.class M.released managers.items ≡ told_by [] }
    ensures made { IfOk result.0 (λ answer.
        IsRunIn in_turns deck answer (told_to M.class M.released result.1.items)) }
    ensures refused { IfErr result.0 (λ e.
        (told_to M.class M.released result.1.items ≡ told_by [])
        ⊎ AreToldOfRunIn in_turns deck (told_to M.class M.released result.1.items)) }
{
    match run_with::<M>(alloc, deck, managers) {
        Ok((region, end)) => {
            let (system, managers) = region.into_parts();
            system.trace();
            (traced_answer(alloc, &system, end), managers)
        }
        Err(NoRun { managers }) => (Err(NoMemory), managers),
    }
}

/// What is to be written for the bytes of a deck under the word `seq`: the trace of its run, or its first fault. These
/// managers are told of the releases of the run. There are four of them, in the order of the classes, ENQ, STOR, DSN,
/// TIMR, and they were told nothing yet; they come back in that order.
#[tactic(auto, using(crate::proofs::Answers::run_deck, crate::proofs::Answers::run_fault, crate::proofs::Answers::told_deck, crate::proofs::Answers::told_nothing))]
pub fn seq_answer<M: Manager>(
    alloc: Global,
    bytes: &[u8],
    managers: Vec<M>,
) -> (Result<Answer, NoMemory>, Vec<M>)
    requires { told_to M.class M.released managers.items ≡ told_by [] }
    ensures made { IfOk result.0 (λ answer.
        IsRunAnswer in_turns bytes.now answer (told_to M.class M.released result.1.items)) }
    ensures refused { IfErr result.0 (λ e.
        AreToldOfRunOrNothing in_turns bytes.now (told_to M.class M.released result.1.items)) }
{
    match read_deck(alloc, bytes) {
        Ok(deck) => deck_answer::<M>(alloc, deck, managers),
        Err(DeckFault::Memory) => (Err(NoMemory), managers),
        Err(DeckFault::Refused { card, why }) => (refusal(alloc, card, why), managers),
    }
}
