//! A run on one thread whose managers are told of its releases.

ghost use Rattle.std.specs.Prelude.{◌≡◌, IfErr, IfOk, Some, []};
ghost use Rattle.rtm_board.specs.All.{AreAll};
ghost use Rattle.rtm_desk.specs.Told.{told_by, told_to};
ghost use Rattle.rtm_model.specs.Legal.{end_of};
ghost use Rattle.rtm_model.specs.Turns.{seq};

use crate::ready::{NoRun, make_ready};
use crate::region::Region;
use rtm_board::Notes;
use rtm_deck_items::Deck;
use rtm_desk::Manager;
use rtm_model::End;
use std::alloc::Global;

/// Runs a region from its start to its end, in turns (this profile). The notes are those of all commands of its deck,
/// and are back in the set at the end. Each manager is told of a release of its class as it is made. Answers how the
/// history ends.
pub fn seq_run<M: Manager>(region: &mut Region<M>, notes: &mut Notes) -> End
    requires start { region.old.system.trace ≡ [] }
    requires notes { AreAll region.old.system.deck notes.old }
    ensures trace { region.new.system.trace ≡ seq region.old.system.deck }
    ensures end { end_of region.new.system.deck region.new.system.trace ≡ Some result }
    ensures deck { region.new.system.deck ≡ region.old.system.deck }
{
    let mut turn = 0;
    'turns: loop {
        match region.system().turn(turn) {
            Ok(entry) => {
                turn = region.system().turn_after(turn, &entry);
                region.make_next(notes, entry);
            }
            Err(end) => return end,
        }
    }
}

/// Runs the deck to its end on one thread, in turns (this profile), and tells these managers of its releases. There
/// are four of them, in the order of the classes, ENQ, STOR, DSN, TIMR, and they were told nothing yet. All memory is
/// taken before the first entry is made; where there is none the managers come back, and were told nothing. Answers
/// the region as the run has left it, and how its history ends.
pub fn run_with<M: Manager>(
    alloc: Global,
    deck: Deck,
    managers: Vec<M>,
) -> Result<(Region<M>, End), NoRun<M>>
    requires { told_to M.class M.released managers.items ≡ told_by [] }
    ensures deck { IfOk result (λ run. run.0.system.deck ≡ deck) }
    ensures trace { IfOk result (λ run. run.0.system.trace ≡ seq deck) }
    ensures end { IfOk result (λ run. end_of deck run.0.system.trace ≡ Some run.1) }
    ensures told { IfOk result (λ run. run.0.desks.told ≡ told_by (seq deck)) }
    ensures refused { IfErr result (λ no_run.
        told_to M.class M.released no_run.managers.items ≡ told_by []) }
{
    match make_ready::<M>(alloc, deck, managers) {
        Ok((mut region, mut notes)) => {
            let end = seq_run::<M>(&mut region, &mut notes);
            region.managers_are_told();
            Ok((region, end))
        }
        Err(no_run) => Err(no_run),
    }
}
