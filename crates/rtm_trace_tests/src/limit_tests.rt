//! Decks that go to the limits of the machine, with their traces.

mod limits;

use rtm_desk::{Manager, MemManager};
use rtm_io::{MemSink, MemSource};
use rtm_model::Res;
use rtm_top::{RtmWord, Status, plain_words};
use std::alloc::{AllocError, Global};
use std::test::Fail;

/// A deck that runs to its end, and the entries of its trace without their indices.
pub struct Long {
    pub name: &'static str,
    pub deck: &'static [Part],
    pub trace: &'static [Part],
}

/// Some lines of a long text.
pub enum Part {
    /// These lines.
    Once(&'static str),
    /// These lines, so many times.
    Times(u32, &'static str),
    /// These lines, so many times, with a number in the place of each `#`: at first the second number, and from one
    /// time to the next so much more as the third says.
    Numbered(u32, i32, i32, &'static str),
}

// Runs a deck under seq, and gives the sink that was written and the status.
fn run(alloc: Global, deck: &str) -> Result<(MemSink, Status), Fail> {
    let mut words = Vec::new(alloc);
    words.push(RtmWord {
        text: String::from_str(alloc, "seq")?,
    })?;
    let bytes = Vec::from_slice(alloc, deck.as_bytes())?;
    let mut src = MemSource::new(bytes, Vec::new(alloc));
    let mut out = MemSink::new(alloc, 2_000_000, Vec::new(alloc))?;
    let mut managers: Vec<Box<dyn Manager + Send>> = Vec::new(alloc);
    managers.push(Box::new(alloc, MemManager::new(alloc, Res::Enq))?)?;
    managers.push(Box::new(alloc, MemManager::new(alloc, Res::Stor))?)?;
    managers.push(Box::new(alloc, MemManager::new(alloc, Res::Dsn))?)?;
    managers.push(Box::new(alloc, MemManager::new(alloc, Res::Timr))?)?;
    let outcome = plain_words(alloc, &words, &mut src, &mut out, managers);
    Ok((out, outcome.status))
}

// Adds a line, with the number in the place of its `#`.
fn add_line(alloc: Global, text: &mut String, line: &str, number: i32) -> Result<(), AllocError> {
    match line.split_once('#') {
        None => text.push_str(line)?,
        Some((front, back)) => {
            let digits = format!(in alloc; "{number}")?;
            text.push_str(front)?;
            text.push_str(&digits)?;
            text.push_str(back)?;
        }
    }
    text.push_str("\n")
}

// All lines, one after the other.
fn text_of(alloc: Global, parts: &[Part]) -> Result<String, AllocError> {
    let mut text = String::new(alloc);
    for part in parts {
        let (count, mut number, step, lines) = match *part {
            Part::Once(lines) => (1, 0, 0, lines),
            Part::Times(count, lines) => (count, 0, 0, lines),
            Part::Numbered(count, first, step, lines) => (count, first, step, lines),
        };
        for _ in 0..count {
            for line in lines.lines() {
                add_line(alloc, &mut text, line, number)?;
            }
            number = number.wrapping_add(step);
        }
    }
    Ok(text)
}

// The trace of these entries, each with its index, that ends with the address space.
fn trace_of(alloc: Global, parts: &[Part]) -> Result<String, AllocError> {
    let entries = text_of(alloc, parts)?;
    let mut text = String::from_str(alloc, "RTMTRACE 1\n")?;
    for (index, entry) in entries.as_str().lines().enumerate() {
        let line = format!(in alloc; "{index} {entry}\n")?;
        text.push_str(&line)?;
    }
    text.push_str("END ENDED\n")?;
    Ok(text)
}

#[test]
fn limits_are_kept(rt: HostRuntime) -> Result<(), Fail> {
    for long in &limits::ROWS {
        let deck = text_of(rt.alloc(), long.deck)?;
        let trace = trace_of(rt.alloc(), long.trace)?;
        let (out, status) = run(rt.alloc(), &deck)?;
        assert!(rt; status == Status::Fine, "{}", long.name);
        assert!(rt; out.bytes() == trace.as_bytes(), "{}", long.name);
    }
    Ok(())
}

#[test]
fn sixty_tasks_are_run(rt: HostRuntime) -> Result<(), Fail> {
    let deck = text_of(rt.alloc(), &limits::SIXTY_TASKS)?;
    let (out, status) = run(rt.alloc(), &deck)?;
    let text = str::from_utf8(out.bytes())?;
    let mut releases = 0_u32;
    for line in text.lines() {
        if line.contains(" RELEASE ") {
            releases = releases.wrapping_add(1);
        }
    }
    assert!(rt; status == Status::Fine);
    assert_eq!(rt; text.lines().count(), 29_347);
    assert_eq!(rt; releases, 2_461);
    Ok(())
}
