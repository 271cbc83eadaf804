//! The system: a deck, what lives of it, and the trace that it has made.

ghost use Rattle.std.specs.Prelude.{◌≡◌, ◌≤◌, ◌<◌, ◌++◌, ◌∷◌, ◌+◌, ◌==◌, [], length, nat_le, true, IsTrue, IfOk, None, Some};
ghost use Rattle.std.specs.List.{AllByRecursion};
ghost use Rattle.rtm_deck_items.specs.WellFormed.{is_well_formed};
ghost use Rattle.rtm_model.specs.declared.entry.Entry.{Entry};
ghost use Rattle.rtm_model.specs.Arrivals.{first_arrival, may_arrive, target_of};
ghost use Rattle.rtm_model.specs.Advance.{world};
ghost use Rattle.rtm_model.specs.Fits.{Fits};
ghost use Rattle.rtm_model.specs.Legal.{Legal, MayFollow, end_of};
ghost use Rattle.rtm_model.specs.NextEntry.{next};
ghost use Rattle.rtm_system_world.specs.Seen.{IsSeen};
ghost use Rattle.rtm_system_world.specs.Shape.{IsShaped};
ghost use Rattle.rtm_system.specs.Turned.{IsNext, arriving_command};
ghost use Rattle.rtm_system.specs.Steps.{arrival_answer, entries_arrived, entries_of, is_gone, step_answer, stops};

use crate::arrived::Arrived;
use crate::stepped::Stepped;
use rtm_board::Note;
use rtm_codes::NoMemory;
use rtm_deck_items::Deck;
use rtm_model::{End, Entry, Fate, What};
use rtm_system_world::{Glance, World};
use std::alloc::Global;
use std::marker::Model;

/// A deck that runs: what lives of it, and the trace that it has made so far.
#[derive(Drop)]
pub struct System {
    deck: Deck,
    world: World,
    trace: Vec<Entry>,
    /// The unit that went on last: it is asked first whether anybody does.
    last: u16,
}

impl Model for System {
    ghost use Rattle.std.specs.Prelude.{vec_capacity};
    ghost use Rattle.rtm_system.specs.View.{StandsFor, SystemView};

    ghost Value = { SystemView };

    ghost view = { λ a. record { deck = a.deck; trace = a.trace.items } };

    ghost invariant = { λ a. StandsFor a.deck a.world a.trace.items (vec_capacity a.trace) a.last };
}

impl System {
    /// A system at its start, with all the memory that a run of the deck takes.
    pub fn new(alloc: Global, deck: Deck) -> Result<System, NoMemory>
        ensures { IfOk result (λ system. (system.deck ≡ deck) × (system.trace ≡ [])) }
    {
        let world = World::new(alloc, &deck)?;
        let trace = Vec::with_capacity(alloc, deck.entry_limit() as usize)?;
        Ok(System {
            deck,
            world,
            trace,
            last: 0,
        })
    }

    /// The deck that runs.
    pub fn deck(&self) -> &Deck
        ensures value { result.now ≡ self.now.deck }
    {
        &self.deck
    }

    /// The entries so far, oldest first.
    pub fn trace(&self) -> &[Entry]
        ensures value { result.now ≡ self.now.trace }
        ensures legal { Legal self.now.deck self.now.trace }
        ensures fits { AllByRecursion (Fits self.now.deck) self.now.trace }
    {
        self.deck.keeps_its_form();
        &self.trace
    }

    // A law of the type, and no work: its world has a unit for each of the deck's.
    fn is_shaped(&self)
        ensures { IsShaped self.now.deck (world self.now.deck self.now.trace) }
    {
        self.deck.keeps_its_form();
    }

    pub(crate) fn next(&self, unit: u16) -> Option<What>
        ensures { result ≡ next self.now.deck (world self.now.deck self.now.trace) unit }
    {
        self.is_shaped();
        self.world.next(&self.deck, unit)
    }

    /// What is seen at a glance of the unit's next entry.
    #[inline(always)]
    pub(crate) fn glance(&self, unit: u16) -> Glance
        ensures { IsSeen (next self.now.deck (world self.now.deck self.now.trace) unit) result }
    {
        self.world.glance(&self.deck, unit)
    }

    /// Whether the deck has no command of the operator.
    pub(crate) fn has_no_commands(&self) -> bool
        ensures { result ≡ (length self.now.deck.commands == 0) }
    {
        self.deck.commands.len() == 0
    }

    // The unit that went on last.
    fn last_unit(&self) -> u16
        ensures { result ≤ length self.now.deck.units }
    {
        self.last
    }

    /// How the history ends, or none where it goes on. The unit that went on last is asked first whether it does.
    #[tactic(auto, using(crate::proofs::Rounds::going))]
    pub fn end(&self) -> Option<End>
        ensures { result ≡ end_of self.now.deck self.now.trace }
    {
        match self.turn(self.last_unit()) {
            Ok(_) => None,
            Err(end) => Some(end),
        }
    }

    /// Whether the address space has ended, or no unit has a next entry and no command may arrive.
    pub fn is_over(&self) -> bool
        ensures { result ≡ stops (end_of self.now.deck self.now.trace) }
    {
        matches!(self.end(), Some(End::Ended | End::Stalled))
    }

    /// Whether the history has as many entries as it may have.
    pub(crate) fn is_at_limit(&self) -> bool
        ensures { result ≡ nat_le self.now.deck.limit (length self.now.trace) }
    {
        self.trace.len() >= self.deck.entry_limit() as usize
    }

    /// The arrival of the first command, in the order of the deck, that may arrive; `quiet` says that no unit has a
    /// next entry.
    pub(crate) fn first_arrival(&self, quiet: bool) -> Option<Entry>
        ensures { result
            ≡ first_arrival self.now.deck (world self.now.deck self.now.trace)
            (length self.now.trace) quiet }
    {
        self.deck.keeps_its_form();
        self.world
            .first_arrival(&self.deck, self.trace.len(), quiet)
    }

    /// What becomes of the cancel that the command posts, where it may arrive. The limit of entries isn't asked.
    pub fn may_arrive(&self, cmd: u8) -> Option<Fate>
        ensures { result
            ≡ may_arrive self.now.deck (world self.now.deck self.now.trace)
            (length self.now.trace) cmd }
    {
        self.is_shaped();
        self.world.may_arrive(&self.deck, self.trace.len(), cmd)
    }

    // Makes an entry that may follow: each way to make one ends here. Whose turn it was last is told for the next
    // question who goes on.
    fn add(&mut self, entry: Entry, last: u16)
        requires room { length self.old.trace < self.old.deck.limit }
        requires follows { MayFollow self.old.deck (world self.old.deck self.old.trace)
            (length self.old.trace) entry entry.what }
        requires last { last ≤ length self.old.deck.units }
        ensures trace { self.new.trace ≡ self.old.trace ++ entry ∷ [] }
        ensures deck { self.new.deck ≡ self.old.deck }
    {
        self.deck.keeps_its_form();
        let count = self.trace.len();
        let index = count as u32;
        self.trace.push_reserved(entry);
        self.world.apply(&self.deck, index, &self.trace[count]);
        self.last = last;
    }

    /// A law of the type, and no work: each entry that may stand next is of a unit of the deck, or the master's.
    pub(crate) fn is_in_deck(&self)
        ensures { (e : Entry) → IsNext self.now.deck self.now.trace e
            → e.unit ≤ length self.now.deck.units }
    {
        self.deck.keeps_its_form();
    }

    /// Adds an entry that may stand next. A command arrives by its note alone: by `arrive`, or under `make_next`.
    pub fn append(&mut self, entry: Entry)
        requires next { IsNext self.old.deck self.old.trace entry }
        requires no_arrival { arriving_command entry.what ≡ None }
        ensures trace { self.new.trace ≡ self.old.trace ++ entry ∷ [] }
        ensures deck { self.new.deck ≡ self.old.deck }
    {
        self.is_in_deck();
        self.add(entry, entry.unit);
    }

    /// Makes the next entry of the unit of that number, where it has one. The number of units is the master unit's.
    #[tactic(auto, using(crate::proofs::Going::nothing_stops))]
    pub fn step(&mut self, unit: u16) -> Stepped
        requires { unit ≤ length self.old.deck.units }
        ensures answer { result ≡ step_answer self.old.deck self.old.trace unit }
        ensures trace { self.new.trace ≡ self.old.trace ++ entries_of result }
        ensures deck { self.new.deck ≡ self.old.deck }
    {
        let next = self.next(unit);
        match next {
            Some(what) => self.make(unit, what),
            None => {
                if self.is_over() {
                    Stepped::IsOver
                } else if self.is_at_limit() {
                    Stepped::AtLimit
                } else {
                    Stepped::NotReady
                }
            }
        }
    }

    // Makes that entry, which is the unit's next one, below the limit and where the run isn't over.
    #[tactic(auto, using(crate::proofs::Going::nothing_stops, crate::proofs::Going::over_stops, crate::proofs::Following::next_follows))]
    fn make(&mut self, unit: u16, what: What) -> Stepped
        requires unit { unit ≤ length self.old.deck.units }
        requires next { next self.old.deck (world self.old.deck self.old.trace) unit ≡ Some what }
        ensures answer { result ≡ step_answer self.old.deck self.old.trace unit }
        ensures trace { self.new.trace ≡ self.old.trace ++ entries_of result }
        ensures deck { self.new.deck ≡ self.old.deck }
    {
        if self.has_ended() {
            return Stepped::IsOver;
        }
        if self.is_at_limit() {
            return Stepped::AtLimit;
        }
        let entry = Entry { unit, what };
        self.add(entry, unit);
        Stepped::Made(entry)
    }

    /// Whether the address space has ended.
    pub(crate) fn has_ended(&self) -> bool
        ensures { result ≡ (world self.now.deck self.now.trace).over }
    {
        self.world.is_over()
    }

    /// The target of the command of that number.
    pub(crate) fn target_of(&self, cmd: u8) -> u16
        ensures value { result ≡ target_of self.now.deck cmd }
    {
        match self.deck.commands.get(cmd as usize) {
            Some(command) => command.target,
            None => 0,
        }
    }

    // Whether the command never arrives any more.
    fn is_gone(&self, cmd: u8) -> bool
        ensures { result ≡ is_gone self.now.deck (world self.now.deck self.now.trace) cmd }
    {
        self.world.is_gone(self.target_of(cmd))
    }

    /// Makes the entry of a command's arrival, where it may arrive. The note is only looked at, and may be shown again.
    pub fn arrive(&mut self, note: &Note) -> Arrived
        ensures answer { result ≡ arrival_answer self.old.deck self.old.trace note.now }
        ensures trace { self.new.trace ≡ self.old.trace ++ entries_arrived result }
        ensures deck { self.new.deck ≡ self.old.deck }
    {
        let cmd = note.cmd();
        if self.is_gone(cmd) {
            return Arrived::Gone;
        }
        if self.is_at_limit() {
            return Arrived::NotYet;
        }
        match self.arrival(cmd) {
            None => Arrived::NotYet,
            Some(entry) => {
                let last = self.last_unit();
                self.add(entry, last);
                Arrived::Made(entry)
            }
        }
    }
}
