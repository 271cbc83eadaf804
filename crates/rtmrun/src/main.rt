//! Runs a deck of recovery termination and prints its trace, or judges a trace.
#![tactic(auto)]

ghost use Rattle.std.specs.Prelude.{◌≡◌, IfErr, IfOk, drop, map, string_bytes};
ghost use Rattle.rtmrun.specs.Call.{IsCall};
ghost use Rattle.rtmrun.specs.Words.{HasNoWords};
ghost use Rattle.std.specs.Process.{exit_status};
ghost use Rattle.rtm_top_answers.specs.Status.{status_number};

use rtm_crew_threads::OpenGate;
use rtm_desk::{Manager, MemManager};
use rtm_io::{Sink, Source, StdSink, StdSource};
use rtm_model::Res;
use rtm_top::{RtmWord, Status};
use rtm_top_words::rtm_words;
use std::alloc::{AllocError, Global};
use std::env;
use std::io::ErrorKind;
use std::process::ExitCode;
use std::rt::Env;
use std::sync::Wait;
use std::thread::Threads;

// The words behind the program's name, which is the first of all.
fn words_behind(alloc: Global, all: Vec<String>) -> Result<Vec<RtmWord>, AllocError>
    ensures { IfOk result (λ words. words.items ≡ map string_bytes (drop 1 all.items)) }
{
    all.into_iter()
        .skip(1)
        .map(|text| RtmWord { text })
        .collect(alloc)
}

// The words that the system hands over, the program's name in front. Which they are the system gives no contract can
// say.
fn all_words<R: Env + AllocGlobal>(rt: &R) -> Result<Vec<String>, Status>
    ensures { IfErr result HasNoWords }
{
    match env::args(rt) {
        Ok(all) => match all.collect(rt.alloc()) {
            Ok(texts) => Ok(texts),
            Err(AllocError) => Err(Status::Memory),
        },
        Err(error) if error.kind() == ErrorKind::OutOfMemory => Err(Status::Memory),
        Err(_) => Err(Status::Words),
    }
}

// Does what the words say, with managers in memory that are told of the releases of a run, and are dropped when it is
// over. Nobody is told of the workers of a run and of their entries.
fn called<S: Source, K: Sink, R: Threads + Wait + Sync>(
    rt: &R,
    alloc: Global,
    words: &[RtmWord],
    src: &mut S,
    out: &mut K,
) -> Result<Status, AllocError>
    ensures { IfOk result (IsCall words.now (λ told. record {
      left = S.left src.old;
      source_before = S.faults src.old;
      source_now = S.faults src.new;
      sink_before = K.faults out.old;
      sink_now = K.faults out.new;
      written_before = K.written out.old;
      written_now = K.written out.new;
      told = told;
    })) }
{
    let mut managers: Vec<Box<dyn Manager + Send>> = Vec::new(alloc);
    managers.push(Box::new(alloc, MemManager::new(alloc, Res::Enq))?)?;
    managers.push(Box::new(alloc, MemManager::new(alloc, Res::Stor))?)?;
    managers.push(Box::new(alloc, MemManager::new(alloc, Res::Dsn))?)?;
    managers.push(Box::new(alloc, MemManager::new(alloc, Res::Timr))?)?;
    let outcome = rtm_words(rt, alloc, words, src, out, managers, &OpenGate);
    Ok(outcome.status)
}

// The number with which the program ends.
fn exit_code(status: Status) -> ExitCode
    ensures { exit_status result ≡ status_number status }
{
    ExitCode::from(status.exit_status())
}

fn main(rt: HostRuntime) -> ExitCode {
    let words = match all_words(&rt) {
        Ok(all) => words_behind(rt.alloc(), all).map_err(|_| Status::Memory),
        Err(status) => Err(status),
    };
    let status = match words {
        Ok(words) => {
            let mut src = StdSource::over(rt.stdin());
            let mut out = StdSink::over(rt.stdout());
            match called(&rt, rt.alloc(), &words, &mut src, &mut out) {
                Ok(status) => status,
                Err(AllocError) => Status::Memory,
            }
        }
        Err(status) => status,
    };
    exit_code(status)
}
