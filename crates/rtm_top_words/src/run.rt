//! What is to be written of a deck that is run on threads.

ghost use Rattle.std.specs.Prelude.{◌≡◌, ◌⊎◌, ◌≤◌, ◌+◌, [], IfErr, IfOk, OnOk};
ghost use Rattle.rtm_cards.specs.Limits.{most_bytes};
ghost use Rattle.rtm_crew.specs.Histories.{in_any_order};
ghost use Rattle.rtm_desk.specs.Told.{told_by, told_to};
ghost use Rattle.rtm_io.specs.Stream.{TakesAtMost};
ghost use Rattle.rtm_top.specs.Answer.{IsDue, IsUnmade};
ghost use Rattle.rtm_top.specs.declared.request.Request.{Request};
ghost use Rattle.rtm_top_answers.specs.Run.{AreToldOfRunIn, AreToldOfRunOrNothing, IsRunAnswer, IsRunIn};

use rtm_cards::MOST_BYTES;
use rtm_codes::NoMemory;
use rtm_crew::NoRun;
use rtm_crew_threads::{Gate, drive};
use rtm_deck::{DeckFault, read_deck};
use rtm_deck_items::Deck;
use rtm_desk::Manager;
use rtm_io::{InFault, Source, read_all};
use rtm_top::{or_memory, too_long_answer};
use rtm_top_answers::{Answer, Status, refusal, traced_answer};
use std::alloc::Global;
use std::sync::Wait;
use std::thread::Threads;

// What is written of a deck that is run, and the managers, told of its releases. Where memory is wanting before the
// first entry they were told nothing, and where the text can't be made they were told of all.
#[tactic(auto, using(rtm_top_answers::proofs::Answers::run_in, rtm_top_answers::proofs::Answers::told_all, rtm_top_answers::proofs::Answers::told_none))]
fn deck_answer<M: Manager + Send, G: Gate, R: Threads + Wait + Sync>(
    rt: &R,
    alloc: Global,
    deck: Deck,
    managers: Vec<M>,
    gate: &G,
) -> (Result<Answer, NoMemory>, Vec<M>)
    requires { told_to M.class M.released managers.items ≡ told_by [] }
    ensures made { IfOk result.0 (λ answer.
        IsRunIn in_any_order deck answer (told_to M.class M.released result.1.items)) }
    ensures refused { IfErr result.0 (λ e.
        (told_to M.class M.released result.1.items ≡ told_by [])
        ⊎ AreToldOfRunIn in_any_order deck (told_to M.class M.released result.1.items)) }
{
    match drive::<M, G, R>(rt, alloc, deck, managers, gate) {
        Ok((region, end)) => {
            let (system, managers) = region.into_parts();
            system.trace();
            (traced_answer(alloc, &system, end), managers)
        }
        Err(NoRun { managers }) => (Err(NoMemory), managers),
    }
}

// What is to be written for the bytes of a deck: the trace of its run, or its first fault. The managers are told of the
// releases of the run.
#[tactic(auto, using(rtm_top_answers::proofs::Answers::run_deck, rtm_top_answers::proofs::Answers::run_fault, rtm_top_answers::proofs::Answers::told_deck, rtm_top_answers::proofs::Answers::told_nothing))]
fn run_answer<M: Manager + Send, G: Gate, R: Threads + Wait + Sync>(
    rt: &R,
    alloc: Global,
    bytes: &[u8],
    managers: Vec<M>,
    gate: &G,
) -> (Result<Answer, NoMemory>, Vec<M>)
    requires { told_to M.class M.released managers.items ≡ told_by [] }
    ensures made { IfOk result.0 (λ answer.
        IsRunAnswer in_any_order bytes.now answer (told_to M.class M.released result.1.items)) }
    ensures refused { IfErr result.0 (λ e.
        AreToldOfRunOrNothing in_any_order bytes.now
        (told_to M.class M.released result.1.items)) }
{
    match read_deck(alloc, bytes) {
        Ok(deck) => deck_answer::<M, G, R>(rt, alloc, deck, managers, gate),
        Err(DeckFault::Memory) => (Err(NoMemory), managers),
        Err(DeckFault::Refused { card, why }) => (refusal(alloc, card, why), managers),
    }
}

// The same, with a status where memory is wanting.
#[tactic(auto, using(rtm_top::proofs::Saying::unanswered_run))]
fn run_or_status<M: Manager + Send, G: Gate, R: Threads + Wait + Sync>(
    rt: &R,
    alloc: Global,
    bytes: &[u8],
    managers: Vec<M>,
    gate: &G,
) -> (Result<Answer, Status>, Vec<M>)
    requires { told_to M.class M.released managers.items ≡ told_by [] }
    ensures ok { IfOk result.0 (λ answer.
        IsRunAnswer in_any_order bytes.now answer (told_to M.class M.released result.1.items)) }
    ensures err { IfErr result.0 (λ status. status ≡ Status.Memory) }
    ensures told { IfErr result.0 (λ status.
        AreToldOfRunOrNothing in_any_order bytes.now
        (told_to M.class M.released result.1.items)) }
{
    let (answer, managers) = run_answer::<M, G, R>(rt, alloc, bytes, managers, gate);
    (or_memory(answer), managers)
}

/// Reads all bytes, and runs the deck that they spell.
#[tactic(auto, using(rtm_top::proofs::TooLong::of_fault, rtm_top::proofs::Saying::due_read, rtm_top::proofs::Saying::unmade_read, rtm_top::proofs::Saying::unmade_for_memory, rtm_top::proofs::Saying::unmade_by_memory, rtm_top::proofs::Saying::unmade_by_read))]
pub(crate) fn read_and_run<S: Source, M: Manager + Send, G: Gate, R: Threads + Wait + Sync>(
    rt: &R,
    alloc: Global,
    src: &mut S,
    managers: Vec<M>,
    gate: &G,
) -> (Result<Answer, Status>, Vec<M>)
    requires { told_to M.class M.released managers.items ≡ told_by [] }
    ensures ok { IfOk result.0 (λ answer. IsDue Request.Run (S.left src.old) answer
        (told_to M.class M.released result.1.items)) }
    ensures err { IfErr result.0 (IsUnmade Request.Run (S.left src.old)
        (told_to M.class M.released result.1.items) (S.faults src.old) (S.faults src.new)) }
    ensures counted { OnOk result.0 (S.faults src.new ≡ S.faults src.old) }
    ensures front { TakesAtMost (most_bytes + 1) (S.left src.old) (S.left src.new) }
    ensures later { S.faults src.old ≤ S.faults src.new }
{
    match read_all(alloc, src, MOST_BYTES) {
        Ok(bytes) => run_or_status::<M, G, R>(rt, alloc, &bytes, managers, gate),
        Err(InFault::TooLong { line }) => (too_long_answer(alloc, line), managers),
        Err(InFault::Memory) => (Err(Status::Memory), managers),
        Err(InFault::Read) => (Err(Status::Read), managers),
    }
}
