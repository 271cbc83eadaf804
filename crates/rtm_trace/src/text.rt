//! The text of a trace, format 1.

ghost use Rattle.std.specs.Prelude.{◌≡◌, ◌++◌, ◌+◌, ◌<◌, ◌≤◌, OnOk, IfOk, codes, decimal, length, slice_get};
ghost use Rattle.std.specs.List.{AllByRecursion};
ghost use Rattle.rtm_codes.specs.Code.{IsInRange};
ghost use Rattle.rtm_model.specs.Fits.{Fits, WhatFits};
ghost use Rattle.rtm_deck_items.specs.View.{DeckView};
ghost use Rattle.rtm_trace.specs.inner.Labels.{labels_of};
ghost use Rattle.rtm_trace.specs.Text.{unit_text, program_in, land_text, enter_text, left_text, done_text, arrive_text, begin_text, place_text, reason_text, mark_text, posted_text, verdict_text, what_text, entry_text, line_text, lines_text, end_text, end_line, trace_text};

use crate::index::Index;
use crate::labels::Labels;
use crate::push;
use crate::table::{class_word, end_line, fate_word, kind_word, res_word, verdict_word};
use rtm_codes::{Code, NoMemory};
use rtm_deck_items::{Deck, Res};
use rtm_model::{Class, End, Entry, Fate, Kind, Mark, Place, Verdict, What};
use std::alloc::Global;

fn push_unit(out: &mut Vec<u8>, deck: &Deck, unit: u16) -> Result<(), NoMemory>
    ensures { OnOk result (out.new.items ≡ out.old.items ++ unit_text deck.now unit) }
{
    if unit as usize == deck.units.len() {
        return push::bytes(out, b"*");
    }
    match deck.units.get(unit as usize) {
        None => Ok(()),
        Some(card) => push::name(out, &card.name),
    }
}

fn push_place(out: &mut Vec<u8>, deck: &Deck, place: Place) -> Result<(), NoMemory>
    ensures { OnOk result (out.new.items ≡ out.old.items ++ place_text deck.now place) }
{
    push_program(out, deck, place.prog)?;
    push::bytes(out, b".")?;
    push::small_number(out, place.op)
}

fn push_program(out: &mut Vec<u8>, deck: &Deck, prog: u16) -> Result<(), NoMemory>
    ensures { OnOk result
        (out.new.items ≡ out.old.items ++ program_in (slice_get deck.now.programs prog)) }
{
    match deck.programs.get(prog as usize) {
        None => Ok(()),
        Some(program) => push::name(out, &program.name),
    }
}

fn push_reason(out: &mut Vec<u8>, reason: Option<u32>) -> Result<(), NoMemory>
    ensures { OnOk result (out.new.items ≡ out.old.items ++ reason_text reason) }
{
    match reason {
        None => Ok(()),
        Some(n) => {
            push::bytes(out, b" REASON=")?;
            push::reason_digits(out, n)
        }
    }
}

fn push_mark(out: &mut Vec<u8>, mark: Mark) -> Result<(), NoMemory>
    requires { IsInRange mark.code }
    ensures { OnOk result (out.new.items ≡ out.old.items ++ mark_text mark) }
{
    push::code(out, mark.code)?;
    push_reason(out, mark.reason)?;
    push::flag(out, mark.clup, b" CLUP")?;
    push::flag(out, mark.perc, b" PERC")?;
    push::flag(out, mark.staf, b" STAF")
}

fn push_posted(out: &mut Vec<u8>, words: &[u8], fate: Option<Fate>) -> Result<(), NoMemory>
    ensures { OnOk result (out.new.items ≡ out.old.items ++ posted_text words.now fate) }
{
    match fate {
        None => Ok(()),
        Some(fate) => {
            push::bytes(out, words)?;
            push::bytes(out, fate_word(fate))
        }
    }
}

fn push_verdict(out: &mut Vec<u8>, deck: &Deck, verdict: Verdict) -> Result<(), NoMemory>
    ensures { OnOk result (out.new.items ≡ out.old.items ++ verdict_text deck.now verdict) }
{
    match verdict {
        Verdict::Retry(place) => {
            push::bytes(out, b"RETRY ")?;
            push_place(out, deck, place)
        }
        Verdict::Perc | Verdict::Stop | Verdict::Bad | Verdict::Fail | Verdict::Over => {
            push::bytes(out, verdict_word(verdict))
        }
    }
}

fn push_exec(out: &mut Vec<u8>, deck: &Deck, at: Place, rc: u8) -> Result<(), NoMemory>
    ensures { OnOk result (out.new.items ≡ out.old.items ++ what_text deck.now (What.Exec at rc)) }
{
    push::bytes(out, b"EXEC ")?;
    push_place(out, deck, at)?;
    push::bytes(out, b" RC=")?;
    push::number(out, u64::from(rc))
}

fn push_error(out: &mut Vec<u8>, deck: &Deck, at: Place, mark: Mark) -> Result<(), NoMemory>
    requires { IsInRange mark.code }
    ensures { OnOk result
        (out.new.items ≡ out.old.items ++ what_text deck.now (What.Error at mark)) }
{
    push::bytes(out, b"ERROR ")?;
    push_place(out, deck, at)?;
    push::bytes(out, b" ")?;
    push_mark(out, mark)
}

fn push_land(out: &mut Vec<u8>, class: Class, from: u32, mark: Mark) -> Result<(), NoMemory>
    requires { IsInRange mark.code }
    ensures { OnOk result (out.new.items ≡ out.old.items ++ land_text class from mark) }
{
    push::bytes(out, b"LAND ")?;
    push::bytes(out, class_word(class))?;
    push::bytes(out, b" ")?;
    push::number(out, u64::from(from))?;
    push::bytes(out, b" ")?;
    push_mark(out, mark)
}

fn push_enter(
    out: &mut Vec<u8>,
    kind: Kind,
    reg: u32,
    mark: Mark,
    bare: bool,
) -> Result<(), NoMemory>
    requires { IsInRange mark.code }
    ensures { OnOk result (out.new.items ≡ out.old.items ++ enter_text kind reg mark bare) }
{
    push::bytes(out, b"ENTER ")?;
    push::bytes(out, kind_word(kind))?;
    push::bytes(out, b" ")?;
    push::number(out, u64::from(reg))?;
    push::bytes(out, b" ")?;
    push_mark(out, mark)?;
    push::flag(out, bare, b" NOSDWA")
}

fn push_left(
    out: &mut Vec<u8>,
    deck: &Deck,
    kind: Kind,
    reg: u32,
    verdict: Verdict,
) -> Result<(), NoMemory>
    ensures { OnOk result (out.new.items ≡ out.old.items ++ left_text deck.now kind reg verdict) }
{
    push::bytes(out, b"LEAVE ")?;
    push::bytes(out, kind_word(kind))?;
    push::bytes(out, b" ")?;
    push::number(out, u64::from(reg))?;
    push::bytes(out, b" ")?;
    push_verdict(out, deck, verdict)
}

fn push_release(
    out: &mut Vec<u8>,
    deck: &Deck,
    class: Res,
    id: u32,
    owner: u16,
) -> Result<(), NoMemory>
    ensures { OnOk result
        (out.new.items ≡ out.old.items ++ what_text deck.now (What.Release class id owner)) }
{
    push::bytes(out, b"RELEASE ")?;
    push::bytes(out, res_word(class))?;
    push::bytes(out, b" ")?;
    push::number(out, u64::from(id))?;
    push::bytes(out, b" ")?;
    push_unit(out, deck, owner)
}

fn push_done(
    out: &mut Vec<u8>,
    code: Code,
    to_task: Option<Fate>,
    to_step: Option<Fate>,
) -> Result<(), NoMemory>
    requires { IsInRange code }
    ensures { OnOk result (out.new.items ≡ out.old.items ++ done_text code to_task to_step) }
{
    push::bytes(out, b"DONE ")?;
    push::code(out, code)?;
    push_posted(out, b" TASK=", to_task)?;
    push_posted(out, b" STEP=", to_step)
}

fn push_leave(
    out: &mut Vec<u8>,
    deck: &Deck,
    routine: (Kind, u32),
    verdict: Verdict,
    flags: (bool, bool),
) -> Result<(), NoMemory>
    ensures { OnOk result (out.new.items ≡ out.old.items
        ++ what_text deck.now (What.Leave routine.0 routine.1 verdict flags.0 flags.1)) }
{
    let (kind, reg) = routine;
    let (logrec, dump) = flags;
    push_left(out, deck, kind, reg, verdict)?;
    push::flag(out, logrec, b" LOGREC")?;
    push::flag(out, dump, b" DUMP")
}

fn push_arrive(out: &mut Vec<u8>, cmd: u8, fate: Fate) -> Result<(), NoMemory>
    ensures { OnOk result (out.new.items ≡ out.old.items ++ arrive_text cmd fate) }
{
    push::bytes(out, b"ARRIVE ")?;
    push::number(out, u64::from(cmd))?;
    push::bytes(out, b" ")?;
    push::bytes(out, fate_word(fate))
}

fn push_begin(out: &mut Vec<u8>, code: Code, dump: bool) -> Result<(), NoMemory>
    requires { IsInRange code }
    ensures { OnOk result (out.new.items ≡ out.old.items ++ begin_text code dump) }
{
    push::bytes(out, b"BEGIN ")?;
    push::code(out, code)?;
    push::flag(out, dump, b" DUMP")
}

fn push_purge(out: &mut Vec<u8>, deck: &Deck, unit: u16) -> Result<(), NoMemory>
    ensures { OnOk result (out.new.items ≡ out.old.items ++ what_text deck.now (What.Purge unit)) }
{
    push::bytes(out, b"PURGE ")?;
    push_unit(out, deck, unit)
}

/// What an entry says.
pub(crate) fn push_what(out: &mut Vec<u8>, deck: &Deck, what: What) -> Result<(), NoMemory>
    requires { WhatFits deck.now what }
    ensures { OnOk result (out.new.items ≡ out.old.items ++ what_text deck.now what) }
{
    match what {
        What::Exec { at, rc } => push_exec(out, deck, at, rc),
        What::Error { at, mark } => push_error(out, deck, at, mark),
        What::Land { class, from, mark } => push_land(out, class, from, mark),
        What::Enter {
            kind,
            reg,
            mark,
            bare,
        } => push_enter(out, kind, reg, mark, bare),
        What::Leave {
            kind,
            reg,
            verdict,
            logrec,
            dump,
        } => push_leave(out, deck, (kind, reg), verdict, (logrec, dump)),
        What::Arrive { cmd, fate } => push_arrive(out, cmd, fate),
        What::Begin { code, dump } => push_begin(out, code, dump),
        What::Release { class, id, owner } => push_release(out, deck, class, id, owner),
        What::Done {
            code,
            to_task,
            to_step,
        } => push_done(out, code, to_task, to_step),
        What::Purge { unit } => push_purge(out, deck, unit),
        What::MemEnd => push::bytes(out, b"MEMEND"),
    }
}

/// Puts the line of an entry without its index and its line feed: the unit, and what the entry says. The only error is
/// want of memory; a part may have been put then.
pub fn push_entry(out: &mut Vec<u8>, deck: &Deck, entry: &Entry) -> Result<(), NoMemory>
    requires { Fits deck.now entry.now }
    ensures { OnOk result (out.new.items ≡ out.old.items ++ entry_text deck.now entry.now) }
{
    push_unit(out, deck, entry.unit)?;
    push::bytes(out, b" ")?;
    push_what(out, deck, entry.what)
}

/// The line of the entry of that index.
pub(crate) fn push_line(
    out: &mut Vec<u8>,
    deck: &Deck,
    index: u64,
    entry: &Entry,
) -> Result<(), NoMemory>
    requires { Fits deck.now entry.now }
    ensures { OnOk result (out.new.items ≡ out.old.items ++ line_text deck.now index entry.now) }
{
    push::number(out, index)?;
    push::bytes(out, b" ")?;
    push_entry(out, deck, entry)?;
    push::bytes(out, b"\n")
}

/// The word of an end.
pub fn end_word(end: End) -> &'static [u8]
    ensures { result.now ≡ end_text end }
{
    match end {
        End::Ended => b"ENDED",
        End::Stalled => b"STALLED",
        End::Limit => b"LIMIT",
    }
}

// What stands behind the place on the line of a card's entry.
#[inline(always)]
#[tactic(auto, using(crate::proofs::Pieces::one_digit))]
fn push_rc(out: &mut Vec<u8>, rc: u8) -> Result<(), NoMemory>
    ensures { OnOk result
        (out.new.items ≡ out.old.items ++ (codes " RC=" ++ decimal rc ++ codes "\n")) }
{
    if rc < 10 {
        return Ok(out.extend_from_slice(&[b' ', b'R', b'C', b'=', b'0' + rc, b'\n'])?);
    }
    push::bytes(out, b" RC=")?;
    push::number(out, u64::from(rc))?;
    push::bytes(out, b"\n")
}

// The line of a card's entry, which is that of most.
fn push_exec_line(
    out: &mut Vec<u8>,
    labels: &Labels,
    index: &Index,
    unit: u16,
    at: Place,
    rc: u8,
) -> Result<(), NoMemory>
    requires unit { unit < length labels.now.execs }
    requires program { at.prog < length labels.now.programs }
    ensures { (d : DeckView) → labels.now ≡ labels_of d → unit ≤ length d.units
        → at.prog < length d.programs
        → OnOk result (out.new.items ≡ out.old.items
        ++ line_text d index.now (record { unit = unit; what = What.Exec at rc })) }
{
    index.put(out)?;
    labels.exec(unit).put(out)?;
    labels.program(at.prog).put(out)?;
    push::small_number(out, at.op)?;
    push_rc(out, rc)
}

// The line of another entry.
#[inline(never)]
fn push_other_line(
    out: &mut Vec<u8>,
    deck: &Deck,
    labels: &Labels,
    index: &Index,
    entry: &Entry,
) -> Result<(), NoMemory>
    requires fit { Fits deck.now entry.now }
    requires labels { labels.now ≡ labels_of deck.now }
    ensures { OnOk result (out.new.items ≡ out.old.items ++ line_text deck.now index.now entry.now) }
{
    index.put(out)?;
    labels.unit(entry.unit).put(out)?;
    push_what(out, deck, entry.what)?;
    push::bytes(out, b"\n")
}

// The line of an entry, by the labels of the deck.
#[inline(always)]
fn push_labelled(
    out: &mut Vec<u8>,
    deck: &Deck,
    labels: &Labels,
    index: &Index,
    entry: &Entry,
) -> Result<(), NoMemory>
    requires fit { Fits deck.now entry.now }
    requires labels { labels.now ≡ labels_of deck.now }
    ensures { OnOk result (out.new.items ≡ out.old.items ++ line_text deck.now index.now entry.now) }
{
    match entry.what {
        What::Exec { at, rc } => push_exec_line(out, labels, index, entry.unit, at, rc),
        _ => push_other_line(out, deck, labels, index, entry),
    }
}

fn push_lines(
    out: &mut Vec<u8>,
    deck: &Deck,
    labels: &Labels,
    entries: &[Entry],
) -> Result<(), NoMemory>
    requires fit { AllByRecursion (Fits deck.now) entries.now }
    requires labels { labels.now ≡ labels_of deck.now }
    ensures { OnOk result (out.new.items ≡ out.old.items ++ lines_text deck.now 0 entries.now) }
{
    let mut index = Index::first();
    'entries: for entry in entries {
        push_labelled(out, deck, labels, &index, entry)?;
        index.count_up();
    }
    Ok(())
}

// Room for so many lines of a usual length; longer ones make it grow.
const USUAL_LINE: usize = 32;

/// The text of a trace: a line for each entry, between the format's line and the end's. The only error is want of
/// memory.
pub fn trace_text(
    alloc: Global,
    deck: &Deck,
    entries: &[Entry],
    end: End,
) -> Result<Vec<u8>, NoMemory>
    requires { AllByRecursion (Fits deck.now) entries.now }
    ensures { IfOk result (λ text. text.items ≡ trace_text deck.now entries.now end) }
{
    let mut out = Vec::with_capacity(alloc, entries.len().saturating_mul(USUAL_LINE))?;
    push::bytes(&mut out, b"RTMTRACE 1\n")?;
    let labels = Labels::of(alloc, deck)?;
    push_lines(&mut out, deck, &labels, entries)?;
    push::bytes(&mut out, end_line(end))?;
    Ok(out)
}
