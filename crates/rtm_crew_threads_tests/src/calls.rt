//! Calls of the program.

use rtm_crew_threads::Gate;
use rtm_deck::read_deck;
use rtm_desk::{Manager, MemManager};
use rtm_io::{MemSink, MemSource};
use rtm_model::{Entry, Res};
use rtm_top::{RtmWord, Status};
use rtm_top_words::rtm_words;
use rtm_trace::read_trace;
use std::alloc::{AllocError, Global};
use std::sync::Wait;
use std::test::Fail;
use std::thread::Threads;

// More bytes than the program writes in these tests.
const ROOM: usize = 100_000;

// Calls the program with managers in memory, and gives the status.
fn said<G: Gate, R: Threads + Wait + Sync>(
    rt: &R,
    alloc: Global,
    words: &[RtmWord],
    src: &mut MemSource,
    out: &mut MemSink,
    gate: &G,
) -> Result<Status, AllocError> {
    let mut managers: Vec<Box<dyn Manager + Send>> = Vec::new(alloc);
    managers.push(Box::new(alloc, MemManager::new(alloc, Res::Enq))?)?;
    managers.push(Box::new(alloc, MemManager::new(alloc, Res::Stor))?)?;
    managers.push(Box::new(alloc, MemManager::new(alloc, Res::Dsn))?)?;
    managers.push(Box::new(alloc, MemManager::new(alloc, Res::Timr))?)?;
    let outcome = rtm_words(rt, alloc, words, src, out, managers, gate);
    Ok(outcome.status)
}

/// Calls the program with a word over these bytes, and gives its status and what it has written.
pub(crate) fn called<G: Gate, R: Threads + Wait + Sync>(
    rt: &R,
    alloc: Global,
    word: &str,
    bytes: &[&[u8]],
    gate: &G,
) -> Result<(Status, Vec<u8>), Fail> {
    let mut words = Vec::new(alloc);
    words.push(RtmWord {
        text: String::from_str(alloc, word)?,
    })?;
    let mut given = Vec::new(alloc);
    for part in bytes {
        given.extend_from_slice(part)?;
    }
    let mut src = MemSource::new(given, Vec::new(alloc));
    let mut out = MemSink::new(alloc, ROOM, Vec::new(alloc))?;
    let status = said(rt, alloc, &words, &mut src, &mut out, gate)?;
    Ok((status, Vec::from_slice(alloc, out.bytes())?))
}

/// The entries of a trace that was written for a deck. None where there is no memory, or the text is no trace.
pub(crate) fn entries_of(alloc: Global, deck: &[u8], trace: &[u8]) -> Option<Vec<Entry>> {
    if trace.len() > ROOM {
        return None;
    }
    let deck = read_deck(alloc, deck).ok()?;
    let (entries, _end) = read_trace(alloc, &deck, trace).ok()?;
    Some(entries)
}
