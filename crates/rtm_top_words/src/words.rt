//! The top call of the program: all that it does, on threads where it is to.

ghost use Rattle.std.specs.Prelude.{◌≡◌, ◌≢◌, ◌↔◌, ◌≤◌, ◌+◌, [], ℕ, map};
ghost use Rattle.rtm_cards.specs.Limits.{most_bytes};
ghost use Rattle.rtm_desk.specs.Told.{Row, told_by, told_to};
ghost use Rattle.rtm_io.specs.Stream.{TakesAtMost};
ghost use Rattle.rtm_top.specs.Answer.{Says};
ghost use Rattle.rtm_top.specs.Due.{AnswersWords};
ghost use Rattle.rtm_top.specs.Request.{AreUnknown, IsRequest, words_of};
ghost use Rattle.rtm_top.specs.declared.request.Request.{Request};

use crate::run::read_and_run;
use rtm_crew_threads::Gate;
use rtm_desk::Manager;
use rtm_io::{Sink, Source};
use rtm_top::{Outcome, Request, RtmWord, plain_words, request_of, write_answer};
use rtm_top_answers::Status;
use std::alloc::Global;
use std::sync::Wait;
use std::thread::Threads;

/// Does what the words say, and nothing else: `run` runs a deck on threads, a worker for each unit, and writes its
/// trace, which is one of those that the machine may make, and not always the same. All other words are done as
/// `plain_words` does them. The gate is told of each worker that begins and of each entry that is made by `run`.
///
/// Nothing says that a run ends: what is said holds where the call returns.
///
/// The managers are four, in the order of the classes, ENQ, STOR, DSN, TIMR, and were told nothing yet. Under `seq` and
/// `run` each is told of the releases of its class, those of the trace that is written and no other; under other words,
/// and where there is no run, they are told nothing. They come back in the same order.
pub fn rtm_words<S: Source, K: Sink, G: Gate, R: Threads + Wait + Sync>(
    rt: &R,
    alloc: Global,
    words: &[RtmWord],
    src: &mut S,
    out: &mut K,
    managers: Vec<Box<dyn Manager + Send>>,
    gate: &G,
) -> Outcome
    requires { map {B = Row} (λ b. (class b, released b)) managers.items ≡ told_by [] }

    // Words comes exactly where the words are none that are known, and then nothing was read, nothing written, and
    // no manager told anything.
    ensures words { (result.status ≡ Status.Words) ↔ AreUnknown words.now }
    ensures source { result.status ≡ Status.Words → src.new ≡ src.old }
    ensures sink { result.status ≡ Status.Words → out.new ≡ out.old }
    ensures managers { result.status ≡ Status.Words
        → map {B = Row} (λ b. (class b, released b)) result.managers.items ≡ told_by [] }

    // A load reads nothing.
    ensures load { (tasks : ℕ) → IsRequest (Request.Load tasks)
        → words.now ≡ words_of (Request.Load tasks)
        → src.new ≡ src.old }

    // Where the source failed or memory is wanting, the sink is as it was.
    ensures read { result.status ≡ Status.Read → out.new ≡ out.old }
    ensures memory { result.status ≡ Status.Memory → out.new ≡ out.old }

    // Whatever the status: the source gave one byte more than are read, at most, and no count of faults fell.
    ensures front { TakesAtMost (most_bytes + 1) (S.left src.old) (S.left src.new) }
    ensures later { S.faults src.old ≤ S.faults src.new }
    ensures sink_later { K.faults out.old ≤ K.faults out.new }

    // What the status says of what was read, written and told, and that it is the one that is due where no count of
    // faults rose and the status isn't Memory.
    ensures answer { AnswersWords words.now (record {
      left = S.left src.old;
      source_before = S.faults src.old;
      source_now = S.faults src.new;
      sink_before = K.faults out.old;
      sink_now = K.faults out.new;
      written_before = K.written out.old;
      written_now = K.written out.new;
      told = map {B = Row} (λ b. (class b, released b)) result.managers.items;
    }) result.status }
{
    match request_of(words) {
        Some(Request::Run) => {
            let (status, managers) = run_words::<S, K, Box<dyn Manager + Send>, G, R>(
                rt, alloc, src, out, managers, gate,
            );
            Outcome { status, managers }
        }
        _ => plain_words(alloc, words, src, out, managers),
    }
}

// Does what `run` asks for, and answers the status and the managers.
#[tactic(auto, using(rtm_top::proofs::Saying::says_sent, rtm_top::proofs::Saying::says_unmade, rtm_top::proofs::Saying::sent_is_not_read, rtm_top::proofs::Saying::sent_is_not_memory, rtm_top::proofs::Saying::sent_is_not_words, rtm_top::proofs::Saying::unmade_is_not_words))]
fn run_words<S: Source, K: Sink, M: Manager + Send, G: Gate, R: Threads + Wait + Sync>(
    rt: &R,
    alloc: Global,
    src: &mut S,
    out: &mut K,
    managers: Vec<M>,
    gate: &G,
) -> (Status, Vec<M>)
    requires { told_to M.class M.released managers.items ≡ told_by [] }
    ensures known { result.0 ≢ Status.Words }
    ensures read { result.0 ≡ Status.Read → out.new ≡ out.old }
    ensures memory { result.0 ≡ Status.Memory → out.new ≡ out.old }
    ensures front { TakesAtMost (most_bytes + 1) (S.left src.old) (S.left src.new) }
    ensures later { S.faults src.old ≤ S.faults src.new }
    ensures sink_later { K.faults out.old ≤ K.faults out.new }
    ensures answer { Says Request.Run (record {
      left = S.left src.old;
      source_before = S.faults src.old;
      source_now = S.faults src.new;
      sink_before = K.faults out.old;
      sink_now = K.faults out.new;
      written_before = K.written out.old;
      written_now = K.written out.new;
      told = told_to M.class M.released result.1.items;
    }) result.0 }
{
    let (answer, managers) = read_and_run::<S, M, G, R>(rt, alloc, src, managers, gate);
    match answer {
        Err(status) => (status, managers),
        Ok(answer) => (write_answer(out, &answer), managers),
    }
}
