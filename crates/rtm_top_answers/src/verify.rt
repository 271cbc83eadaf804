//! What is written under `verify`.

ghost use Rattle.std.specs.Prelude.{◌≡◌, ◌≤◌, ◌++◌, IfOk, IfSome, OnOk, length};
ghost use Rattle.rtm_cards.specs.Limits.{most_bytes};
ghost use Rattle.rtm_model.specs.Fits.{Fits};
ghost use Rattle.rtm_top_answers.specs.Verify.{IsJudgement, IsOfTrace, IsVerifyAnswer, bad_line, bad_line_text, found_text};
ghost use Rattle.rtm_top_answers.specs.Verify.{not_legal, not_legal_text, verified_answer, verified_text, wanted_text};
ghost use Rattle.rtm_top_answers.specs.Verify.{wrong_end, wrong_end_text};

use crate::answer::Answer;
use crate::refusals::refusal;
use crate::status::Status;
use rtm_cards::split;
use rtm_codes::NoMemory;
use rtm_deck::{DeckFault, read_deck};
use rtm_deck_items::Deck;
use rtm_model::{End, Entry};
use rtm_trace::{TraceFault, end_word, push, push_entry, read_trace};
use rtm_trace_judge::{JudgeFault, judge};
use std::alloc::Global;

fn push_wanted(out: &mut Vec<u8>, deck: &Deck, wanted: Option<Entry>) -> Result<(), NoMemory>
    requires { IfSome wanted (Fits deck.now) }
    ensures { OnOk result (out.new.items ≡ out.old.items ++ wanted_text deck.now wanted) }
{
    match wanted {
        None => push::bytes(out, b"NONE"),
        Some(entry) => push_entry(out, deck, &entry),
    }
}

fn found_word(found: Option<End>) -> &'static [u8]
    ensures { result.now ≡ found_text found }
{
    match found {
        None => b"NONE",
        Some(end) => end_word(end),
    }
}

fn push_bad_line(out: &mut Vec<u8>, line: u32) -> Result<(), NoMemory>
    ensures { OnOk result (out.new.items ≡ out.old.items ++ bad_line_text line) }
{
    push::bytes(out, b"LINE ")?;
    push::number(out, u64::from(line))?;
    push::bytes(out, b"\n")
}

fn push_not_legal(
    out: &mut Vec<u8>,
    deck: &Deck,
    index: u32,
    wanted: Option<Entry>,
) -> Result<(), NoMemory>
    requires { IfSome wanted (Fits deck.now) }
    ensures { OnOk result (out.new.items ≡ out.old.items ++ not_legal_text deck.now index wanted) }
{
    push::bytes(out, b"NOTLEGAL ")?;
    push::number(out, u64::from(index))?;
    push::bytes(out, b" WANTED ")?;
    push_wanted(out, deck, wanted)?;
    push::bytes(out, b"\n")
}

fn push_wrong_end(out: &mut Vec<u8>, stated: End, found: Option<End>) -> Result<(), NoMemory>
    ensures { OnOk result (out.new.items ≡ out.old.items ++ wrong_end_text stated found) }
{
    push::bytes(out, b"WRONGEND ")?;
    push::bytes(out, end_word(stated))?;
    push::bytes(out, b" ")?;
    push::bytes(out, found_word(found))?;
    push::bytes(out, b"\n")
}

fn push_verified(out: &mut Vec<u8>, entries: u64, end: End) -> Result<(), NoMemory>
    ensures { OnOk result (out.new.items ≡ out.old.items ++ verified_text entries end) }
{
    push::bytes(out, b"VERIFIED ")?;
    push::number(out, entries)?;
    push::bytes(out, b" ")?;
    push::bytes(out, end_word(end))?;
    push::bytes(out, b"\n")
}

// What is written where the trace has that first bad line.
fn bad_line(alloc: Global, line: u32) -> Result<Answer, NoMemory>
    ensures { IfOk result (λ answer. answer ≡ bad_line line) }
{
    let mut text = Vec::new(alloc);
    push_bad_line(&mut text, line)?;
    Ok(Answer {
        text,
        status: Status::Line,
    })
}

// What is written where that entry is the first illegal one.
fn not_legal(
    alloc: Global,
    deck: &Deck,
    index: u32,
    wanted: Option<Entry>,
) -> Result<Answer, NoMemory>
    requires { IfSome wanted (Fits deck.now) }
    ensures { IfOk result (λ answer. answer ≡ not_legal deck.now index wanted) }
{
    let mut text = Vec::new(alloc);
    push_not_legal(&mut text, deck, index, wanted)?;
    Ok(Answer {
        text,
        status: Status::NotLegal,
    })
}

// What is written where the history ends otherwise.
fn wrong_end(alloc: Global, stated: End, found: Option<End>) -> Result<Answer, NoMemory>
    ensures { IfOk result (λ answer. answer ≡ wrong_end stated found) }
{
    let mut text = Vec::new(alloc);
    push_wrong_end(&mut text, stated, found)?;
    Ok(Answer {
        text,
        status: Status::WrongEnd,
    })
}

// What is written where the trace is accepted.
fn verified_answer(alloc: Global, entries: &[Entry], end: End) -> Result<Answer, NoMemory>
    ensures { IfOk result (λ answer. answer ≡ verified_answer (length entries.now) end) }
{
    let mut text = Vec::new(alloc);
    push_verified(&mut text, entries.len() as u64, end)?;
    Ok(Answer {
        text,
        status: Status::Fine,
    })
}

// What is written of a trace, by its judgement.
#[tactic(auto, using(crate::proofs::Answers::accepts, crate::proofs::Answers::names_illegal, crate::proofs::Answers::names_end))]
fn judgement(alloc: Global, deck: &Deck, entries: &[Entry], end: End) -> Result<Answer, NoMemory>
    ensures { IfOk result (IsJudgement deck.now (record { entries = entries.now; end = end })) }
{
    match judge(alloc, deck, entries, end) {
        Ok(()) => verified_answer(alloc, entries, end),
        Err(JudgeFault::NotLegal { index, wanted }) => not_legal(alloc, deck, index, wanted),
        Err(JudgeFault::WrongEnd { stated, found }) => wrong_end(alloc, stated, found),
        Err(JudgeFault::Memory) => Err(NoMemory),
    }
}

// What is written of the bytes behind a deck.
#[tactic(auto, using(crate::proofs::Answers::names_line, crate::proofs::Answers::judges_trace))]
fn trace_answer(alloc: Global, deck: &Deck, bytes: &[u8]) -> Result<Answer, NoMemory>
    requires { length bytes.now ≤ 4294967294 }
    ensures { IfOk result (IsOfTrace deck.now bytes.now) }
{
    match read_trace(alloc, deck, bytes) {
        Ok((entries, end)) => judgement(alloc, deck, &entries, end),
        Err(TraceFault::BadLine { line }) => bad_line(alloc, line),
        Err(TraceFault::Memory) => Err(NoMemory),
    }
}

/// What is to be written of an input under the word `verify`: the first fault of its deck, else the first bad line of
/// the trace behind it, else its judgement. The input has at most 16,777,216 bytes.
#[tactic(auto, using(crate::proofs::Answers::verified_deck, crate::proofs::Answers::verified_fault))]
pub fn verify_answer(alloc: Global, bytes: &[u8]) -> Result<Answer, NoMemory>
    requires { length bytes.now ≤ most_bytes }
    ensures { IfOk result (IsVerifyAnswer bytes.now) }
{
    let (front, rest) = split(bytes);
    match read_deck(alloc, front) {
        Ok(deck) => trace_answer(alloc, &deck, rest),
        Err(DeckFault::Memory) => Err(NoMemory),
        Err(DeckFault::Refused { card, why }) => refusal(alloc, card, why),
    }
}
