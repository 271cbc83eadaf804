//! What the lock keeps: a region that runs, and the notes of its commands.

ghost use Rattle.std.specs.Prelude.{◌≡◌, length};
ghost use Rattle.rtm_board.specs.All.{AreAll};

use rtm_board::Notes;
use rtm_crew::Region;
use rtm_deck_items::Deck;
use rtm_desk::Manager;
use rtm_lock::Keyed;
use rtm_model::{Entry, What};
use rtm_system::{Stepped, System};
use std::snapshot::Snapshot;

/// A region that runs, with the notes of all commands of its deck.
#[derive(Drop)]
pub(crate) struct Running<M: Manager> {
    pub(crate) region: Region<M>,
    pub(crate) notes: Notes,
}

impl<M: Manager> Keyed<Snapshot<Deck>> for Running<M> {
    ghost use Rattle.std.specs.Prelude.{◌≡◌};
    ghost use Rattle.rtm_board.specs.All.{AreAll};

    /// It is a region of that deck.
    ghost belongs = { λ deck running. (running.region.system.deck ≡ deck.value) × AreAll deck.value running.notes };
}

/// What a turn has come to.
#[derive(Clone, Copy)]
pub(crate) enum Turn {
    /// An entry was made, which has that number in the trace.
    Made(u32, Entry),
    /// There is nothing to be made now.
    Waits,
    /// The region is over or has as many entries as it may have, or there is no such unit.
    Ends,
}

/// How many entries were made.
pub(crate) fn count_of(system: &System) -> u32
    ensures { result ≡ length system.now.trace }
{
    system.deck().keeps_its_form();
    system.trace().len() as u32
}

impl<M: Manager> Running<M> {
    /// Makes the next entry of the unit of that number, where it has one.
    pub(crate) fn step(&mut self, unit: u16) -> Turn
        ensures deck { self.new.region.system.deck ≡ self.old.region.system.deck }
        ensures notes { self.new.notes ≡ self.old.notes }
    {
        let system = self.region.system();
        if unit > system.deck().unit_count() {
            return Turn::Ends;
        }
        let index = count_of(system);
        match self.region.step(unit) {
            Stepped::Made(entry) => Turn::Made(index, entry),
            Stepped::NotReady => Turn::Waits,
            Stepped::AtLimit | Stepped::IsOver => Turn::Ends,
        }
    }

    /// Lets the first command arrive that may, else makes the next entry of the master, where there is one.
    pub(crate) fn step_master(&mut self) -> Turn
        requires notes { AreAll self.old.region.system.deck self.old.notes }
        ensures deck { self.new.region.system.deck ≡ self.old.region.system.deck }
        ensures notes { AreAll self.new.region.system.deck self.new.notes }
    {
        let system = self.region.system();
        let master = system.deck().unit_count();
        let index = count_of(system);
        match system.turn(master) {
            Ok(entry) => {
                if entry.unit != master && !is_arrival(&entry) {
                    return Turn::Waits;
                }
                self.region.make_next(&mut self.notes, entry);
                Turn::Made(index, entry)
            }
            Err(_) => Turn::Ends,
        }
    }
}

fn is_arrival(entry: &Entry) -> bool {
    matches!(entry.what, What::Arrive { .. })
}
