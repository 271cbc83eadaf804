//! Whether a history is one that the machine may make.

ghost use Rattle.std.specs.Prelude.{◌≡◌, ◌≤◌, [], IfErr, IfOk, IsTrue, OnOk};
ghost use Rattle.rtm_board.specs.All.{AreAll};
ghost use Rattle.rtm_deck_items.specs.WellFormed.{is_well_formed};
ghost use Rattle.rtm_model.specs.Legal.{Legal};
ghost use Rattle.rtm_system.specs.Turned.{wanted_entry};
ghost use Rattle.rtm_trace_judge.specs.Judged.{IsFault, IsIllegal, IsJudged, IsOtherEnd, WantedFits};

use rtm_board::{Notes, all_notes};
use rtm_codes::NoMemory;
use rtm_deck_items::Deck;
use rtm_model::{End, Entry};
use rtm_system::System;
use std::alloc::Global;

/// Why a history isn't accepted.
#[derive(Clone, Copy, Debug, PartialEq, Eq)]
pub enum JudgeFault {
    /// Memory was refused: nothing is said of the history.
    Memory,
    /// The entry of that index, from 0, may not stand behind those before it. Wanted is the entry that the machine
    /// gives that entry's unit there: none where it gives none, at the limit of entries, and where there is no such
    /// unit.
    NotLegal { index: u32, wanted: Option<Entry> },
    /// All entries may stand where they do, but the history ends otherwise than stated; none is found where it goes on.
    WrongEnd { stated: End, found: Option<End> },
}

/// Judges a history of the deck that somebody else made, and the end that they state: Ok exactly where the machine
/// may make these entries and they end so. Any list of entries is answered, also one whose entries name nothing of
/// the deck.
pub fn judge(alloc: Global, deck: &Deck, entries: &[Entry], end: End) -> Result<(), JudgeFault>
    ensures ok { OnOk result (IsJudged deck.now entries.now end) }
    ensures fault { IfErr result (IsFault deck.now entries.now end) }
    ensures wanted { IfErr result (WantedFits deck.now) }
{
    let mut notes = notes_of(alloc, deck)?;
    let mut system = system_of(alloc, deck)?;
    follow(&mut system, &mut notes, entries)?;
    end_as(&system, end)
}

// The notes of all commands of the deck, as its operator posts them.
fn notes_of(alloc: Global, deck: &Deck) -> Result<Notes, JudgeFault>
    ensures all { IfOk result (AreAll deck.now) }
    ensures memory { IfErr result (λ fault. fault ≡ JudgeFault.Memory) }
{
    match all_notes(alloc, deck) {
        Ok(notes) => Ok(notes),
        Err(NoMemory) => Err(JudgeFault::Memory),
    }
}

// A system of the deck at its start.
fn system_of(alloc: Global, deck: &Deck) -> Result<System, JudgeFault>
    ensures start { IfOk result (λ system. (system.deck ≡ deck.now) × (system.trace ≡ [])) }
    ensures memory { IfErr result (λ fault. fault ≡ JudgeFault.Memory) }
{
    let copy = match deck.copy(alloc) {
        Ok(copy) => copy,
        Err(NoMemory) => return Err(JudgeFault::Memory),
    };
    match System::new(alloc, copy) {
        Ok(system) => Ok(system),
        Err(NoMemory) => Err(JudgeFault::Memory),
    }
}

// A law of systems, and no work: what a system has made is legal.
fn is_legal(system: &System)
    ensures legal { Legal system.now.deck system.now.trace }
    ensures well_formed { IsTrue (is_well_formed system.now.deck) }
{
    system.trace();
    system.deck().keeps_its_form();
}

// The entry of that index, behind those that the system has made, is refused.
#[tactic(auto, using(crate::proofs::Wanted::index_small, crate::proofs::Wanted::wanted_fits))]
fn not_legal_at(system: &System, index: usize, entry: &Entry) -> JudgeFault
    requires { index ≤ system.now.deck.limit }
    ensures fault { result
        ≡ JudgeFault.NotLegal index (wanted_entry system.now.deck system.now.trace entry.now.unit) }
    ensures legal { Legal system.now.deck system.now.trace }
    ensures wanted { WantedFits system.now.deck result }
{
    is_legal(system);
    JudgeFault::NotLegal {
        index: index as u32,
        wanted: system.wanted_entry(entry.unit),
    }
}

// The system makes the entries one after the other, up to the first that it may not make.
fn follow(system: &mut System, notes: &mut Notes, entries: &[Entry]) -> Result<(), JudgeFault>
    requires start { system.old.trace ≡ [] }
    requires notes { AreAll system.old.deck notes.old }
    ensures ok { OnOk result (system.new.trace ≡ entries.now) }
    ensures deck { system.new.deck ≡ system.old.deck }
    ensures fault { IfErr result (IsIllegal system.old.deck entries.now) }
    ensures wanted { IfErr result (WantedFits system.old.deck) }
{
    'entries: for (index, entry) in entries.iter().enumerate() {
        if !system.may_follow(entry) {
            return Err(not_legal_at(system, index, entry));
        }
        system.make_next(notes, *entry);
    }
    Ok(())
}

// Whether the history that the system has made ends as stated.
fn end_as(system: &System, stated: End) -> Result<(), JudgeFault>
    ensures ok { OnOk result (IsJudged system.now.deck system.now.trace stated) }
    ensures wrong { IfErr result (IsOtherEnd system.now.deck system.now.trace stated) }
{
    is_legal(system);
    let found = system.end();
    if found == Some(stated) {
        Ok(())
    } else {
        Err(JudgeFault::WrongEnd { stated, found })
    }
}
