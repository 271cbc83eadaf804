//! A system that runs, and the managers that are told of its releases.

ghost use Rattle.std.specs.Prelude.{◌≡◌, ◌≤◌, ◌++◌, ◌∷◌, ◌-◌, [], length};
ghost use Rattle.rtm_board.specs.All.{AreAll};
ghost use Rattle.rtm_desk.specs.Told.{HasRoom, told_by, told_to};
ghost use Rattle.rtm_system.specs.Steps.{arrival_answer, entries_arrived, entries_of, step_answer};
ghost use Rattle.rtm_system.specs.Turned.{IsNext};

use crate::telling::tell;
use rtm_board::{Note, Notes};
use rtm_desk::{Desks, Manager};
use rtm_model::Entry;
use rtm_system::{Arrived, Stepped, System};
use std::marker::Model;

/// A deck that runs with its managers: each is told of each release of its class at once, in the order of the trace.
#[derive(Drop)]
pub struct Region<M: Manager> {
    system: System,
    desks: Desks<M>,
}

impl<M: Manager> Model for Region<M> {
    ghost use Rattle.rtm_crew.specs.Region.{AreTold, RegionView};

    ghost Value = { RegionView };

    ghost view = { λ a. record { system = a.system; desks = a.desks } };

    ghost invariant = { λ a. AreTold a.system a.desks };
}

impl<M: Manager> Region<M> {
    /// A region at its start: no entry was made, no manager was told anything, and each has room for all the releases
    /// of the longest run.
    pub fn make(system: System, desks: Desks<M>) -> Region<M>
        requires start { system.trace ≡ [] }
        requires told { desks.told ≡ told_by [] }
        requires room { HasRoom system.deck.limit desks }
        ensures system { result.system ≡ system }
        ensures desks { result.desks ≡ desks }
    {
        Region { system, desks }
    }

    /// The system that runs.
    pub fn system(&self) -> &System
        ensures value { result.now ≡ self.now.system }
    {
        &self.system
    }

    /// A law of the type, and no work: the managers were told exactly of the releases of the trace, and each can be
    /// told of as many more as entries may follow.
    pub fn managers_are_told(&self)
        ensures told { self.now.desks.told ≡ told_by self.now.system.trace }
        ensures room { HasRoom (self.now.system.deck.limit - length self.now.system.trace) self.now.desks }
    {
        self.system.trace();
    }

    /// The system, and its managers, in the order of the classes: each was told of the releases of its class.
    pub fn into_parts(self) -> (System, Vec<M>)
        ensures system { result.0 ≡ self.system }
        ensures told { told_to M.class M.released result.1.items ≡ told_by result.0.trace }
    {
        self.managers_are_told();
        (self.system, self.desks.into_managers())
    }

    /// Makes the next entry of the unit of that number, where it has one, as `System::step` does; where that is a
    /// release, its manager is told. The number of units is the master unit's.
    pub fn step(&mut self, unit: u16) -> Stepped
        requires { unit ≤ length self.old.system.deck.units }
        ensures answer { result
            ≡ step_answer self.old.system.deck self.old.system.trace unit }
        ensures trace { self.new.system.trace ≡ self.old.system.trace ++ entries_of result }
        ensures deck { self.new.system.deck ≡ self.old.system.deck }
    {
        let answer = self.system.step(unit);
        self.system.trace();
        match answer {
            Stepped::Made(entry) => tell::<M>(&mut self.desks, entry.what),
            Stepped::NotReady | Stepped::AtLimit | Stepped::IsOver => {}
        }
        answer
    }

    /// Makes the entry of a command's arrival, where it may arrive, as `System::arrive` does.
    pub fn arrive(&mut self, note: &Note) -> Arrived
        ensures answer { result
            ≡ arrival_answer self.old.system.deck self.old.system.trace note.now }
        ensures trace { self.new.system.trace
            ≡ self.old.system.trace ++ entries_arrived result }
        ensures deck { self.new.system.deck ≡ self.old.system.deck }
    {
        let answer = self.system.arrive(note);
        self.system.trace();
        match answer {
            Arrived::Made(entry) => tell::<M>(&mut self.desks, entry.what),
            Arrived::NotYet | Arrived::Gone => {}
        }
        answer
    }

    /// Makes the entry that is to stand next, as `System::make_next` does; where that is a release, its manager is
    /// told.
    pub fn make_next(&mut self, notes: &mut Notes, entry: Entry)
        requires next { IsNext self.old.system.deck self.old.system.trace entry }
        requires notes { AreAll self.old.system.deck notes.old }
        ensures trace { self.new.system.trace ≡ self.old.system.trace ++ entry ∷ [] }
        ensures deck { self.new.system.deck ≡ self.old.system.deck }
        ensures notes { AreAll self.new.system.deck notes.new }
    {
        self.system.make_next(notes, entry);
        self.system.trace();
        tell::<M>(&mut self.desks, entry.what);
    }
}
