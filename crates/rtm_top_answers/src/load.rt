//! What is written of a load.

ghost use Rattle.std.specs.Prelude.{◌≡◌, ◌≤◌, ◌++◌, [], IfOk, OnOk, length, map};
ghost use Rattle.std.specs.List.{count_by};
ghost use Rattle.rtm_deck_load.specs.Deck.{load_deck};
ghost use Rattle.rtm_desk.specs.Told.{told_by};
ghost use Rattle.rtm_top_answers.specs.Load.{IsLoadOf, counted_answer, load_line, release_count};

use crate::answer::Answer;
use crate::status::Status;
use rtm_codes::NoMemory;
use rtm_crew::{NoRun, run_with};
use rtm_deck_items::Deck;
use rtm_deck_load::load_deck;
use rtm_desk::MemManager;
use rtm_model::{End, Entry, Res, What};
use rtm_trace::{end_word, push};
use std::alloc::Global;

// How many holdings were released.
fn release_count(entries: &[Entry]) -> usize
    ensures { result ≡ release_count entries.now }
{
    entries
        .iter()
        .filter(|entry| matches!(entry.what, What::Release { .. }))
        .count()
}

fn push_load(out: &mut Vec<u8>, tasks: u8, entries: &[Entry], end: End) -> Result<(), NoMemory>
    ensures { OnOk result (out.new.items ≡ out.old.items ++ load_line tasks entries.now end) }
{
    push::bytes(out, b"LOAD ")?;
    push::number(out, u64::from(tasks))?;
    push::bytes(out, b" ENTRIES ")?;
    push::number(out, entries.len() as u64)?;
    push::bytes(out, b" RELEASES ")?;
    push::number(out, release_count(entries) as u64)?;
    push::bytes(out, b" ")?;
    push::bytes(out, end_word(end))?;
    push::bytes(out, b"\n")
}

// The line that counts the entries of a run of so many tasks.
fn counted_answer(alloc: Global, tasks: u8, entries: &[Entry], end: End) -> Result<Answer, NoMemory>
    ensures { IfOk result (λ answer. answer ≡ counted_answer tasks entries.now end) }
{
    let mut text = Vec::new(alloc);
    push_load(&mut text, tasks, entries, end)?;
    Ok(Answer {
        text,
        status: Status::of_end(end),
    })
}

// The line that counts the entries of the run of that deck, with these managers.
#[tactic(auto, using(crate::proofs::Answers::load_of))]
fn run_counted(
    alloc: Global,
    tasks: u8,
    deck: Deck,
    managers: Vec<MemManager>,
) -> Result<Answer, NoMemory>
    requires deck { deck ≡ load_deck tasks }
    requires managers { map (λ m. (m.class, m.released)) managers.items ≡ told_by [] }
    ensures { IfOk result (IsLoadOf tasks) }
{
    match run_with::<MemManager>(alloc, deck, managers) {
        Ok((region, end)) => counted_answer(alloc, tasks, region.system().trace(), end),
        Err(NoRun { .. }) => Err(NoMemory),
    }
}

/// What is to be written of the deck that is made of so many tasks, 1 to 60, once it has run: the numbers of its
/// entries and of its releases, and its end. Managers of its own are told of the releases.
pub fn load_answer(alloc: Global, tasks: u8) -> Result<Answer, NoMemory>
    requires least { 1 ≤ tasks }
    requires most { tasks ≤ 60 }
    ensures { IfOk result (IsLoadOf tasks) }
{
    let deck = load_deck(alloc, tasks)?;
    let managers = vec![in alloc;
        MemManager::new(alloc, Res::Enq),
        MemManager::new(alloc, Res::Stor),
        MemManager::new(alloc, Res::Dsn),
        MemManager::new(alloc, Res::Timr),
    ]?;
    run_counted(alloc, tasks, deck, managers)
}
