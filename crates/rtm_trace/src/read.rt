//! Reading a trace.

ghost use Rattle.std.specs.Prelude.{◌≡◌, ◌+◌, ◌≤◌, ◌<◌, [], ◌∷◌, length, take, drop, IfOk, IfErr, IfSome, ℕ};
ghost use Rattle.rtm_trace.specs.Answer.{IsFaultOf, IsThatTrace, IsThatLine, Gives};
ghost use Rattle.rtm_trace.specs.inner.Known.{AreKnown, IsSaid};
ghost use Rattle.rtm_trace.specs.Lines.{IsTraceOf, IsFirstBadLine, text_lines};
ghost use Rattle.rtm_trace.specs.inner.Reading.{confirmed_entry, entry_on, trace_at_end, read_on, read_lines};
ghost use Rattle.rtm_trace.specs.View.{TraceView, trace_of};
ghost use Rattle.rtm_trace.specs.inner.Words.{names_of, first_of, after_of};

use crate::entry_line::{line_in, what_in};
use crate::fault::TraceFault;
use crate::fit::{fits, what_fits};
use crate::known::{Places, behind_index, cut_unit, no_places, place_of, recall, remember};
use crate::names::Names;
use crate::push;
use crate::table::end_in;
use crate::text::{push_line, push_what};
use memchr::memchr;
use rtm_codes::NoMemory;
use rtm_deck_items::Deck;
use rtm_model::{End, Entry, What};
use std::alloc::Global;

// What is read: the entries of a history, oldest first, and how it ends.
type Trace = (Vec<Entry>, End);

// The entry, where it fits and its line is this one.
fn confirmed_entry(
    deck: &Deck,
    index: u64,
    line: &[u8],
    entry: Entry,
    text: &mut Vec<u8>,
) -> Result<Option<Entry>, NoMemory>
    ensures { IfOk result (λ found. found ≡ confirmed_entry deck.now index line.now entry) }
{
    if !fits(deck, &entry) {
        return Ok(None);
    }
    text.clear();
    push_line(text, deck, index, &entry)?;
    Ok(if text.as_slice() == line {
        Some(entry)
    } else {
        None
    })
}

// The entry of that index whose line it is, read anew.
fn entry_on(
    deck: &Deck,
    names: &Names,
    index: u64,
    line: &[u8],
    text: &mut Vec<u8>,
) -> Result<Option<Entry>, NoMemory>
    requires { names.now ≡ names_of deck.now }
    ensures { IfOk result (λ found. found ≡ entry_on deck.now index line.now) }
{
    match line_in(names, deck.unit_count(), line) {
        None => Ok(None),
        Some(entry) => confirmed_entry(deck, index, line, entry, text),
    }
}

// What these bytes say behind the unit of a line, where it fits and they are its text.
fn fitting_what(
    deck: &Deck,
    bytes: &[u8],
    what: What,
    text: &mut Vec<u8>,
) -> Result<Option<What>, NoMemory>
    ensures { IfOk result (λ found. IfSome found (IsSaid deck.now bytes.now)) }
{
    if !what_fits(deck, what) {
        return Ok(None);
    }
    text.clear();
    push_what(text, deck, what)?;
    push::bytes(text, b"\n")?;
    Ok(if text.as_slice() == bytes {
        Some(what)
    } else {
        None
    })
}

fn read_what(
    deck: &Deck,
    names: &Names,
    bytes: &[u8],
    text: &mut Vec<u8>,
) -> Result<Option<What>, NoMemory>
    ensures { IfOk result (λ found. IfSome found (IsSaid deck.now bytes.now)) }
{
    match what_in(names, deck.unit_count(), bytes) {
        None => Ok(None),
        Some(what) => fitting_what(deck, bytes, what, text),
    }
}

// What these bytes say behind the unit of a line: what they said lately, or else read and remembered.
fn known_or_read<'a>(
    deck: &Deck,
    names: &Names,
    bytes: &'a [u8],
    text: &mut Vec<u8>,
    places: &mut Places<'a>,
) -> Result<Option<What>, NoMemory>
    requires { AreKnown deck.now places.old }
    ensures said { IfOk result (λ found. IfSome found (IsSaid deck.now bytes.now)) }
    ensures known { AreKnown deck.now places.new }
{
    let place = place_of(bytes);
    if let Some(what) = recall(places, place, bytes) {
        return Ok(Some(what));
    }
    let found = read_what(deck, names, bytes, text)?;
    if let Some(what) = found {
        remember(places, place, bytes, what);
    }
    Ok(found)
}

// The entry of that index whose line it is. It is read part by part, and whole only where it is none that way. The
// guess is the unit that it may be of.
fn entry_by_parts<'a>(
    deck: &Deck,
    names: &Names,
    index: u64,
    guess: u16,
    line: &'a [u8],
    text: &mut Vec<u8>,
    places: &mut Places<'a>,
) -> Result<Option<Entry>, NoMemory>
    requires names { names.now ≡ names_of deck.now }
    requires known { AreKnown deck.now places.old }
    ensures found { IfOk result (λ found. found ≡ entry_on deck.now index line.now) }
    ensures known { AreKnown deck.now places.new }
{
    deck.keeps_its_form();
    let behind = match behind_index(line, index, text)? {
        None => return entry_on(deck, names, index, line, text),
        Some(behind) => behind,
    };
    let (unit, rest) = match cut_unit(deck, names, guess, behind) {
        None => return entry_on(deck, names, index, line, text),
        Some(found) => found,
    };
    match known_or_read(deck, names, rest, text, places)? {
        None => entry_on(deck, names, index, line, text),
        Some(what) => Ok(Some(Entry { unit, what })),
    }
}

// How many bytes the first line has, with its line feed.
#[tactic(auto, using(crate::proofs::Feeds::of_none, crate::proofs::Feeds::of_some))]
fn line_len(text: &[u8]) -> usize
    ensures within { result ≤ length text.now }
    ensures some { 0 < length text.now → 0 < result }
    ensures first { take result text.now ≡ first_of text.now }
    ensures after { drop result text.now ≡ after_of text.now }
{
    match memchr(b'\n', text) {
        None => text.len(),
        Some(feed) => feed + 1,
    }
}

// Cuts off the first line, with its line feed.
#[tactic(auto, using(crate::proofs::FirstLine::lines_cut))]
fn cut_line(text: &[u8]) -> (&[u8], &[u8])
    requires { 0 < length text.now }
    ensures lines { text_lines text.now ≡ result.0.now ∷ text_lines result.1.now }
    ensures shorter { length result.1.now + 1 ≤ length text.now }
{
    text.split_at(line_len(text))
}

// The trace that ends, or the number of the line behind the end.
#[tactic(auto, using(crate::proofs::FirstLine::ended_more))]
fn trace_at_end(entries: Vec<Entry>, end: End, rest: &[u8]) -> Result<Trace, TraceFault>
    requires { length entries.items + 3 ≤ 4294967295 }
    ensures { Gives result (trace_at_end entries.items end (text_lines rest.now)) }
{
    if rest.is_empty() {
        Ok((entries, end))
    } else {
        Err(TraceFault::BadLine {
            line: entries.len() as u32 + 3,
        })
    }
}

// The line behind the first one and those of that many entries.
fn bad_line(count: usize) -> TraceFault
    requires { count + 2 ≤ 4294967295 }
    ensures { result ≡ TraceFault.BadLine (count + 2) }
{
    TraceFault::BadLine {
        line: count as u32 + 2,
    }
}

// The unit of the line behind one of `unit`, where the line before was of `last`: in turns the one after it, else the
// same.
fn guessed_unit(last: u16, unit: u16) -> u16 {
    if unit == last.saturating_add(1) {
        unit.saturating_add(1)
    } else {
        unit
    }
}

// Reads the lines behind the first.
fn read_on(alloc: Global, deck: &Deck, names: &Names, lines: &[u8]) -> Result<Trace, TraceFault>
    requires names { names.now ≡ names_of deck.now }
    requires few { length lines.now ≤ 4294967293 }
    ensures { Gives result (read_on deck.now [] (text_lines lines.now)) }
{
    let mut entries = Vec::new(alloc);
    let mut text = Vec::new(alloc);
    let mut places = no_places();
    let mut last = 0;
    let mut guess = 0;
    let mut rest = lines;
    'lines: while !rest.is_empty() {
        let (line, behind) = cut_line(rest);
        if let Some(end) = end_in(line) {
            return trace_at_end(entries, end, behind);
        }
        let index = entries.len() as u64;
        match entry_by_parts(deck, names, index, guess, line, &mut text, &mut places)? {
            None => return Err(bad_line(entries.len())),
            Some(entry) => {
                guess = guessed_unit(last, entry.unit);
                last = entry.unit;
                entries.push(entry)?;
            }
        }
        rest = behind;
    }
    Err(bad_line(entries.len()))
}

fn read_lines(alloc: Global, deck: &Deck, bytes: &[u8]) -> Result<Trace, TraceFault>
    requires { length bytes.now ≤ 4294967294 }
    ensures { Gives result (read_lines deck.now (text_lines bytes.now)) }
{
    if bytes.is_empty() {
        return Err(TraceFault::BadLine { line: 1 });
    }
    let (first, behind) = cut_line(bytes);
    if first != b"RTMTRACE 1\n".as_slice() {
        return Err(TraceFault::BadLine { line: 1 });
    }
    let names = Names::of(alloc, deck)?;
    read_on(alloc, deck, &names, behind)
}

/// Reads the text of a trace, or names its first bad line (this profile).
///
/// Bad is a line that isn't the text of an entry that fits the deck and has the line's own index, the format's line
/// at the front and an end's at the back; so is a last line without a line feed, a line behind the end, and where
/// there is no end the line behind the last. The other error is want of memory.
pub fn read_trace(alloc: Global, deck: &Deck, bytes: &[u8]) -> Result<(Vec<Entry>, End), TraceFault>
    requires { length bytes.now ≤ 4294967294 }
    ensures found { IfOk result (λ read. IsTraceOf deck.now bytes.now (trace_of read)) }
    ensures refused { IfErr result (IsFaultOf deck.now bytes.now) }

    // Each trace is read, and the first bad line named, but for want of memory.
    ensures spelled { (t : TraceView) → IsTraceOf deck.now bytes.now t → IsThatTrace t result }
    ensures bad { (line : ℕ) → IsFirstBadLine deck.now bytes.now line → IsThatLine line result }
{
    // The deck brings along that it is well formed.
    deck.keeps_its_form();
    read_lines(alloc, deck, bytes)
}
