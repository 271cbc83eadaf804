//! The start of a run: all its memory is taken before its first entry is made.

ghost use Rattle.std.specs.Prelude.{◌≡◌, IfErr, IfOk, OnOk, []};
ghost use Rattle.rtm_board.specs.All.{AreAll};
ghost use Rattle.rtm_desk.specs.Told.{HasRoom, told_by, told_to};

use crate::region::Region;
use rtm_board::{Notes, all_notes};
use rtm_codes::NoMemory;
use rtm_deck_items::Deck;
use rtm_desk::{Desks, Manager};
use rtm_system::System;
use std::alloc::Global;

/// There was no memory for a run: no entry was made. The managers come back, in the order of the classes.
#[derive(Drop)]
pub struct NoRun<M: Manager> {
    pub managers: Vec<M>,
}

// Takes all the memory of a run: of the system, of the notes of all commands, and of each manager.
fn take_memory<M: Manager>(
    alloc: Global,
    deck: Deck,
    desks: &mut Desks<M>,
) -> Result<(System, Notes), NoMemory>
    ensures deck { IfOk result (λ ready. ready.0.deck ≡ deck) }
    ensures start { IfOk result (λ ready. ready.0.trace ≡ []) }
    ensures notes { IfOk result (λ ready. AreAll deck ready.1) }
    ensures room { OnOk result (HasRoom deck.limit desks.new) }
    ensures told { desks.new.told ≡ desks.old.told }
{
    let most = u64::from(deck.entry_limit());
    let Ok(notes) = all_notes(alloc, &deck) else {
        return Err(NoMemory);
    };
    let Ok(system) = System::new(alloc, deck) else {
        return Err(NoMemory);
    };
    match desks.reserve_all(most) {
        Ok(()) => Ok((system, notes)),
        Err(NoMemory) => Err(NoMemory),
    }
}

/// A region at its start, and the notes of all commands of its deck. Takes all the memory of the run. These managers
/// are told of the releases of the run: four, in the order of the classes, ENQ, STOR, DSN, TIMR, that were told nothing
/// yet. Where there is no memory they come back, and were told nothing.
pub fn make_ready<M: Manager>(
    alloc: Global,
    deck: Deck,
    managers: Vec<M>,
) -> Result<(Region<M>, Notes), NoRun<M>>
    requires { told_to M.class M.released managers.items ≡ told_by [] }
    ensures deck { IfOk result (λ ready. ready.0.system.deck ≡ deck) }
    ensures start { IfOk result (λ ready. ready.0.system.trace ≡ []) }
    ensures notes { IfOk result (λ ready. AreAll deck ready.1) }
    ensures refused { IfErr result (λ no_run.
        told_to M.class M.released no_run.managers.items ≡ told_by []) }
{
    let mut desks = Desks::<M>::over(managers);
    match take_memory::<M>(alloc, deck, &mut desks) {
        Ok((system, notes)) => Ok((Region::<M>::make(system, desks), notes)),
        Err(NoMemory) => {
            let managers = desks.into_managers();
            Err(NoRun { managers })
        }
    }
}
