//! The top call: all that the program does, over a source, a sink and managers.

ghost use Rattle.std.specs.Prelude.{◌≡◌, ◌≢◌, ◌↔◌, ◌≤◌, ◌+◌, [], ℕ, IfOk, IfErr, IsErr, OnOk, length, map};
ghost use Rattle.rtm_cards.specs.Limits.{most_bytes};
ghost use Rattle.rtm_crew.specs.Histories.{in_any_order};
ghost use Rattle.rtm_desk.specs.Told.{Row, told_by, told_to};
ghost use Rattle.rtm_io.specs.Stream.{TakesAtMost};
ghost use Rattle.rtm_top.specs.Answer.{AreToldUnanswered, IsAnswer, IsDue, IsSent, IsUnmade, Says};
ghost use Rattle.rtm_top.specs.Due.{AnswersWords};
ghost use Rattle.rtm_top.specs.Request.{AreUnknown, IsRequest, Reads, words_of};
ghost use Rattle.rtm_top.specs.declared.request.Request.{Request};
ghost use Rattle.rtm_top_answers.specs.Load.{IsLoadOf};
ghost use Rattle.rtm_top_answers.specs.Refusal.{refusal};
ghost use Rattle.rtm_top_answers.specs.Run.{AreToldOfRunOrNothing, IsRunAnswer};

use crate::outcome::Outcome;
use crate::request::{Request, request_of};
use crate::word::RtmWord;
use rtm_cards::MOST_BYTES;
use rtm_codes::NoMemory;
use rtm_deck_items::Why;
use rtm_desk::Manager;
use rtm_io::{InFault, Sink, Source, read_all, write_all};
use rtm_top_answers::{
    Answer, Status, load_answer, refusal, scan_answer, seq_answer, verify_answer,
};
use std::alloc::Global;

/// Want of memory is the status Memory.
pub fn or_memory(answer: Result<Answer, NoMemory>) -> Result<Answer, Status>
    ensures ok { IfOk result (λ made. answer ≡ Ok made) }
    ensures err { IfErr result (λ status. status ≡ Status.Memory) }
    ensures refused { IfErr result (λ status. IsErr answer) }
{
    match answer {
        Ok(answer) => Ok(answer),
        Err(NoMemory) => Err(Status::Memory),
    }
}

// What is to be written of a run in whatever order: on one thread it is in turns.
#[tactic(auto, using(crate::proofs::Saying::in_whatever_order, crate::proofs::Saying::told_in_whatever_order))]
fn legal_answer<M: Manager>(
    alloc: Global,
    bytes: &[u8],
    managers: Vec<M>,
) -> (Result<Answer, NoMemory>, Vec<M>)
    requires { told_to M.class M.released managers.items ≡ told_by [] }
    ensures made { IfOk result.0 (λ answer.
        IsRunAnswer in_any_order bytes.now answer (told_to M.class M.released result.1.items)) }
    ensures refused { IfErr result.0 (λ e.
        AreToldOfRunOrNothing in_any_order bytes.now (told_to M.class M.released result.1.items)) }
{
    seq_answer::<M>(alloc, bytes, managers)
}

// What is to be written of the bytes that were read, and the managers, which are told of the run, where there is one.
#[tactic(auto, using(crate::proofs::Saying::untold_yet, crate::proofs::Saying::unanswered, crate::proofs::Saying::unanswered_run))]
fn answer_of<M: Manager>(
    alloc: Global,
    request: Request,
    bytes: &[u8],
    managers: Vec<M>,
) -> (Result<Answer, Status>, Vec<M>)
    requires reads { Reads request }
    requires few { length bytes.now ≤ most_bytes }
    requires untold { told_to M.class M.released managers.items ≡ told_by [] }
    ensures ok { IfOk result.0 (λ answer.
        IsAnswer request bytes.now answer (told_to M.class M.released result.1.items)) }
    ensures err { IfErr result.0 (λ status. status ≡ Status.Memory) }
    ensures told { IfErr result.0 (λ status.
        AreToldUnanswered request bytes.now (told_to M.class M.released result.1.items)) }
{
    let (answer, managers) = match request {
        Request::Scan => (scan_answer(alloc, bytes), managers),
        Request::Seq => seq_answer::<M>(alloc, bytes, managers),
        Request::Run => legal_answer::<M>(alloc, bytes, managers),
        Request::Verify => (verify_answer(alloc, bytes), managers),
        Request::Load(_) => unreachable!("a load reads nothing"),
    };
    (or_memory(answer), managers)
}

/// What is to be written where more bytes came than are read, the first of them too many on that card, from 1.
pub fn too_long_answer(alloc: Global, card: u32) -> Result<Answer, Status>
    ensures ok { IfOk result (λ answer. answer ≡ refusal card Why.TooLong) }
    ensures err { IfErr result (λ status. status ≡ Status.Memory) }
{
    or_memory(refusal(alloc, card, Why::TooLong))
}

// Reads all bytes, and makes what is to be written of them.
#[tactic(auto, using(crate::proofs::TooLong::of_fault, crate::proofs::Saying::due_read, crate::proofs::Saying::unmade_read, crate::proofs::Saying::unmade_for_memory, crate::proofs::Saying::unmade_by_memory, crate::proofs::Saying::unmade_by_read))]
fn read_answer<S: Source, M: Manager>(
    alloc: Global,
    request: Request,
    src: &mut S,
    managers: Vec<M>,
) -> (Result<Answer, Status>, Vec<M>)
    requires reads { Reads request }
    requires untold { told_to M.class M.released managers.items ≡ told_by [] }
    ensures ok { IfOk result.0 (λ answer.
        IsDue request (S.left src.old) answer (told_to M.class M.released result.1.items)) }
    ensures err { IfErr result.0
        (IsUnmade request (S.left src.old) (told_to M.class M.released result.1.items)
        (S.faults src.old) (S.faults src.new)) }
    ensures counted { OnOk result.0 (S.faults src.new ≡ S.faults src.old) }
    ensures front { TakesAtMost (most_bytes + 1) (S.left src.old) (S.left src.new) }
    ensures later { S.faults src.old ≤ S.faults src.new }
{
    match read_all(alloc, src, MOST_BYTES) {
        Ok(bytes) => answer_of::<M>(alloc, request, &bytes, managers),
        Err(InFault::TooLong { line }) => (too_long_answer(alloc, line), managers),
        Err(InFault::Memory) => (Err(Status::Memory), managers),
        Err(InFault::Read) => (Err(Status::Read), managers),
    }
}

// Makes what is to be written of a load.
fn load_made(alloc: Global, tasks: u8) -> Result<Answer, Status>
    requires { IsRequest (Request.Load tasks) }
    ensures ok { IfOk result (IsLoadOf tasks) }
    ensures err { IfErr result (λ status. status ≡ Status.Memory) }
{
    or_memory(load_answer(alloc, tasks))
}

// Makes what is to be written. A load leaves the source alone, and the managers.
#[tactic(auto, using(crate::proofs::Saying::due_load, crate::proofs::Saying::takes_none, crate::proofs::Saying::unmade_for_memory))]
fn make_answer<S: Source, M: Manager>(
    alloc: Global,
    request: Request,
    src: &mut S,
    managers: Vec<M>,
) -> (Result<Answer, Status>, Vec<M>)
    requires known { IsRequest request }
    requires untold { told_to M.class M.released managers.items ≡ told_by [] }
    ensures ok { IfOk result.0 (λ answer.
        IsDue request (S.left src.old) answer (told_to M.class M.released result.1.items)) }
    ensures err { IfErr result.0
        (IsUnmade request (S.left src.old) (told_to M.class M.released result.1.items)
        (S.faults src.old) (S.faults src.new)) }
    ensures counted { OnOk result.0 (S.faults src.new ≡ S.faults src.old) }
    ensures untouched { (tasks : ℕ) → request ≡ Request.Load tasks → src.new ≡ src.old }
    ensures front { TakesAtMost (most_bytes + 1) (S.left src.old) (S.left src.new) }
    ensures later { S.faults src.old ≤ S.faults src.new }
{
    match request {
        Request::Load(tasks) => (load_made(alloc, tasks), managers),
        _ => read_answer::<S, M>(alloc, request, src, managers),
    }
}

/// Writes the answer, and says with which status the call ends.
pub fn write_answer<K: Sink>(out: &mut K, answer: &Answer) -> Status
    ensures sent { IsSent answer.now (K.faults out.old) (K.faults out.new)
        (K.written out.old) (K.written out.new) result }
    ensures later { K.faults out.old ≤ K.faults out.new }
{
    match write_all(out, &answer.text) {
        Ok(()) => answer.status,
        Err(_) => Status::Write,
    }
}

/// Does what the words say, and nothing else: `scan` reads a deck from the source and writes its canonical text, `seq`
/// runs it on one thread and writes its trace; `verify` reads a deck and the trace that follows it, and judges the
/// trace; `load n` runs a deck that is made of n tasks, 1 to 60, and writes how many entries and releases its run
/// has. It reads nothing. Of `run` it makes what it makes of `seq`, which is one of the histories that `run` may have:
/// it starts no thread.
///
/// An input that spells no deck is refused with its first fault; one of more than 16,777,216 bytes is too long. Of a
/// trace the first bad line is named, else the first entry that may not stand where it does with the one that was
/// wanted, else the end where it is another than stated.
///
/// The managers are four, in the order of the classes, ENQ, STOR, DSN, TIMR, and were told nothing yet. Under `seq` and
/// `run` each is told of the releases of its class, those of the trace that is written and no other; under other words,
/// and where there is no run, they are told nothing. They come back in the same order.
pub fn plain_words<S: Source, K: Sink>(
    alloc: Global,
    words: &[RtmWord],
    src: &mut S,
    out: &mut K,
    managers: Vec<Box<dyn Manager + Send>>,
) -> Outcome
    requires { map {B = Row} (λ b. (class b, released b)) managers.items ≡ told_by [] }

    // Words comes exactly where the words are none that are known, and then nothing was read, nothing written, and
    // no manager told anything.
    ensures words { (result.status ≡ Status.Words) ↔ AreUnknown words.now }
    ensures source { result.status ≡ Status.Words → src.new ≡ src.old }
    ensures sink { result.status ≡ Status.Words → out.new ≡ out.old }
    ensures managers { result.status ≡ Status.Words
        → map {B = Row} (λ b. (class b, released b)) result.managers.items ≡ told_by [] }

    // A load reads nothing.
    ensures load { (tasks : ℕ) → IsRequest (Request.Load tasks)
        → words.now ≡ words_of (Request.Load tasks)
        → src.new ≡ src.old }

    // Where the source failed or memory is wanting, the sink is as it was.
    ensures read { result.status ≡ Status.Read → out.new ≡ out.old }
    ensures memory { result.status ≡ Status.Memory → out.new ≡ out.old }

    // Whatever the status: the source gave one byte more than are read, at most, and no count of faults fell.
    ensures front { TakesAtMost (most_bytes + 1) (S.left src.old) (S.left src.new) }
    ensures later { S.faults src.old ≤ S.faults src.new }
    ensures sink_later { K.faults out.old ≤ K.faults out.new }

    // What the status says of what was read, written and told, and that it is the one that is due where no count of
    // faults rose and the status isn't Memory.
    ensures answer { AnswersWords words.now (record {
      left = S.left src.old;
      source_before = S.faults src.old;
      source_now = S.faults src.new;
      sink_before = K.faults out.old;
      sink_now = K.faults out.new;
      written_before = K.written out.old;
      written_now = K.written out.new;
      told = map {B = Row} (λ b. (class b, released b)) result.managers.items;
    }) result.status }
{
    match request_of(words) {
        None => Outcome {
            status: Status::Words,
            managers,
        },
        Some(request) => {
            let (status, managers) = done::<S, K, Box<dyn Manager + Send>>(
                alloc, request, src, out, managers,
            );
            Outcome { status, managers }
        }
    }
}

// Does what is asked for, and answers the status and the managers.
#[tactic(auto, using(crate::proofs::Saying::says_sent, crate::proofs::Saying::says_unmade, crate::proofs::Saying::sent_is_not_read, crate::proofs::Saying::sent_is_not_memory, crate::proofs::Saying::sent_is_not_words, crate::proofs::Saying::unmade_is_not_words))]
fn done<S: Source, K: Sink, M: Manager>(
    alloc: Global,
    request: Request,
    src: &mut S,
    out: &mut K,
    managers: Vec<M>,
) -> (Status, Vec<M>)
    requires known { IsRequest request }
    requires untold { told_to M.class M.released managers.items ≡ told_by [] }
    ensures known { result.0 ≢ Status.Words }
    ensures untouched { (tasks : ℕ) → request ≡ Request.Load tasks → src.new ≡ src.old }
    ensures read { result.0 ≡ Status.Read → out.new ≡ out.old }
    ensures memory { result.0 ≡ Status.Memory → out.new ≡ out.old }
    ensures front { TakesAtMost (most_bytes + 1) (S.left src.old) (S.left src.new) }
    ensures later { S.faults src.old ≤ S.faults src.new }
    ensures sink_later { K.faults out.old ≤ K.faults out.new }
    ensures answer { Says request (record {
      left = S.left src.old;
      source_before = S.faults src.old;
      source_now = S.faults src.new;
      sink_before = K.faults out.old;
      sink_now = K.faults out.new;
      written_before = K.written out.old;
      written_now = K.written out.new;
      told = told_to M.class M.released result.1.items;
    }) result.0 }
{
    let (answer, managers) = make_answer::<S, M>(alloc, request, src, managers);
    match answer {
        Err(status) => (status, managers),
        Ok(answer) => (write_answer(out, &answer), managers),
    }
}
