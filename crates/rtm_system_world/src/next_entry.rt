//! The one entry that a unit may make next, and whether any has one.

ghost use Rattle.std.specs.Prelude.{◌≡◌, None, true, ◌<◌, ◌≤◌, ◌^◌, length, position, slice_get, not};
ghost use Rattle.rtm_model.specs.Arrivals.{goes_on};
ghost use Rattle.rtm_model.specs.NextEntry.{next, next_of_unit, next_of_master, next_unit, next_master};
ghost use Rattle.rtm_model.specs.Surroundings.{op_here, surroundings};
ghost use Rattle.rtm_model.specs.Tasks.{Tree, is_living};
ghost use Rattle.rtm_system_world.specs.Needs.{is_ending, waits_at};
ghost use Rattle.rtm_system_world.specs.Seen.{IsSeen, execution_of, glance, glance_at_living, glance_by, idle_if};
ghost use Rattle.rtm_system_world.specs.Shape.{IsShaped};
ghost use Rattle.rtm_system_unit.specs.Normal.{runs_normally};
ghost use Rattle.rtm_model.specs.World.{core_at, lives_in, master, unit_at};

use crate::glance::Glance;
use crate::needs::{is_ending, is_srb};
use crate::world::World;
use rtm_codes::Code;
use rtm_deck_items::{Deck, Op};
use rtm_model::{Block, What};
use rtm_system_unit::UnitOfWork;

// Whether the unit waits at a card of WAIT or WAITT, where what it waits for is there or not.
#[inline(always)]
fn has_to_wait(deck: &Deck, unit: u16, state: &UnitOfWork, found: bool) -> bool
    ensures { result ≡ waits_at deck.now unit state.now.core found }
{
    !found && !is_srb(deck, unit) && state.may_wait()
}

// Idle where the unit waits, and else unseen.
#[inline(always)]
fn idle_if(waits: bool) -> Glance
    ensures { result ≡ idle_if waits }
{
    if waits { Glance::Idle } else { Glance::Unseen }
}

// The execution of the card at which that request block stands, if there is one.
#[inline(always)]
fn execution_of(block: Option<Block>) -> Glance
    ensures { result ≡ execution_of block }
{
    match block {
        None => Glance::Unseen,
        Some(block) => Glance::Executes(block.place),
    }
}

impl World {
    // The next entry of a unit that ends.
    #[tactic(auto, using(crate::proofs::NeedsLemmas::same_at_its_end))]
    #[inline(never)]
    fn next_of_ending(&self, deck: &Deck, unit: u16, state: &UnitOfWork) -> Option<What>
        requires state { state.now ≡ unit_at unit self.now.units }
        requires ending { is_ending state.now.core ≡ true }
        ensures { result
            ≡ next_unit deck.now (core_at unit self.now) (surroundings deck.now self.now unit) }
    {
        state.next(deck, &self.needs_of_end(deck, unit))
    }

    // The next entry of a unit, by its case.
    #[tactic(auto, using(crate::proofs::NeedsLemmas::same_at_its_card))]
    #[inline(never)]
    fn next_by_case(&self, deck: &Deck, unit: u16, state: &UnitOfWork) -> Option<What>
        requires state { state.now ≡ unit_at unit self.now.units }
        ensures { result
            ≡ next_unit deck.now (core_at unit self.now) (surroundings deck.now self.now unit) }
    {
        if is_ending(state) {
            self.next_of_ending(deck, unit, state)
        } else {
            state.next(deck, &self.needs_here(deck, unit, state))
        }
    }

    // What is seen of a unit that goes on with its card, by that card.
    #[inline(always)]
    fn glance_by_card(&self, deck: &Deck, unit: u16, state: &UnitOfWork) -> Glance
        requires state { state.now ≡ unit_at unit self.now.units }
        ensures { result ≡ glance_by deck.now self.now unit (op_here deck.now state.now.core) }
    {
        match state.card_here(deck) {
            Some(Op::Nop) => execution_of(state.newest_block()),
            Some(Op::Branch { .. }) => execution_of(state.newest_block()),
            Some(Op::Wait { event }) => {
                idle_if(has_to_wait(deck, unit, state, self.tree.event_posted(*event)))
            }
            Some(Op::WaitTask { unit: task }) => {
                idle_if(has_to_wait(deck, unit, state, self.tree.ended(*task)))
            }
            _ => Glance::Unseen,
        }
    }

    // The same, and what that says of its next entry.
    #[inline(always)]
    fn glance_here(&self, deck: &Deck, unit: u16, state: &UnitOfWork) -> Glance
        requires state { state.now ≡ unit_at unit self.now.units }
        requires normal { runs_normally state.now ≡ true }
        ensures value { result
            ≡ glance_by deck.now self.now unit (op_here deck.now state.now.core) }
        ensures seen { IsSeen
            (next_unit deck.now (core_at unit self.now) (surroundings deck.now self.now unit)) result }
    {
        self.glance_by_card(deck, unit, state)
    }

    // What is seen of a unit that lives.
    #[inline(always)]
    fn glance_at_living(&self, deck: &Deck, unit: u16) -> Glance
        ensures { result ≡ glance_at_living deck.now self.now unit }
    {
        match self.units.get(unit as usize) {
            None => Glance::Unseen,
            Some(state) if state.runs_normally() => self.glance_by_card(deck, unit, state),
            Some(_) => Glance::Unseen,
        }
    }

    // What is seen of any unit.
    #[inline(always)]
    fn glance_at(&self, deck: &Deck, unit: u16) -> Glance
        ensures { result ≡ glance deck.now self.now unit }
    {
        if unit == deck.unit_count() {
            return idle_if(self.memory_end.is_none());
        }
        if self.memory_end.is_some() || !self.tree.living(unit) {
            Glance::Idle
        } else {
            self.glance_at_living(deck, unit)
        }
    }

    /// What is seen at a glance of the next entry of the unit of that number; the number of units is the master's.
    /// Who tries units in turns passes most of them over so, and finds the cards that are met most.
    #[tactic(auto, using(crate::proofs::Seeing::glance_is_seen))]
    #[inline(always)]
    pub fn glance(&self, deck: &Deck, unit: u16) -> Glance
        ensures value { result ≡ glance deck.now self.now unit }
        ensures seen { IsSeen (next deck.now self.now unit) result }
    {
        self.glance_at(deck, unit)
    }

    // The next entry of a unit that goes on with its card: what a glance sees needs no look at the rest.
    #[inline(always)]
    fn next_by_card(&self, deck: &Deck, unit: u16, state: &UnitOfWork) -> Option<What>
        requires state { state.now ≡ unit_at unit self.now.units }
        requires normal { runs_normally state.now ≡ true }
        ensures { result
            ≡ next_unit deck.now (core_at unit self.now) (surroundings deck.now self.now unit) }
    {
        match self.glance_here(deck, unit, state) {
            Glance::Idle => None,
            Glance::Executes(at) => Some(What::Exec { at, rc: 0 }),
            Glance::Unseen => self.next_by_case(deck, unit, state),
        }
    }

    // The next entry of the unit of that number, where it lives and memory end hasn't begun.
    fn next_of_living(&self, deck: &Deck, unit: u16) -> Option<What>
        ensures { result
            ≡ next_unit deck.now (core_at unit self.now) (surroundings deck.now self.now unit) }
    {
        match self.units.get(unit as usize) {
            None => None,
            Some(state) => {
                if state.runs_normally() {
                    self.next_by_card(deck, unit, state)
                } else {
                    self.next_by_case(deck, unit, state)
                }
            }
        }
    }

    // The master's next entry at memory end, of that end code.
    #[tactic(auto, using(crate::proofs::NeedsLemmas::same_next_of_master))]
    #[inline(never)]
    fn next_at_memory_end(&self, deck: &Deck, code: Code) -> Option<What>
        requires shape { IsShaped deck.now self.now }
        ensures { result
            ≡ next_master deck.now (core_at (master deck.now) self.now)
            (surroundings deck.now self.now (master deck.now)) code
            (position is_living (Tree.lives self.now.tree)) }
    {
        let state = &self.units[deck.unit_count() as usize];
        let living = self.tree.first_living();
        state.next_at_memory_end(deck, &self.needs_of_master(deck, state), code, living)
    }

    fn next_of_master(&self, deck: &Deck) -> Option<What>
        requires shape { IsShaped deck.now self.now }
        ensures { result ≡ next_of_master deck.now self.now self.now.memory_end }
    {
        let code = self.memory_end?;
        if self.over {
            None
        } else {
            self.next_at_memory_end(deck, code)
        }
    }

    fn next_of_unit(&self, deck: &Deck, unit: u16) -> Option<What>
        ensures { result ≡ next_of_unit deck.now self.now unit self.now.memory_end }
    {
        match self.memory_end {
            Some(_) => None,
            None if self.tree.living(unit) => self.next_of_living(deck, unit),
            None => None,
        }
    }

    /// The one entry that the unit of that number may make next; the number of units is the master's.
    pub fn next(&self, deck: &Deck, unit: u16) -> Option<What>
        requires shape { IsShaped deck.now self.now }
        ensures { result ≡ next deck.now self.now unit }
    {
        if unit == deck.unit_count() {
            self.next_of_master(deck)
        } else {
            self.next_of_unit(deck, unit)
        }
    }

    /// Whether some unit has a next entry, the master among them.
    #[tactic(auto, using(crate::proofs::Turns::none_more, crate::proofs::Turns::some_in_all))]
    pub fn goes_on(&self, deck: &Deck) -> bool
        requires shape { IsShaped deck.now self.now }
        ensures { result ≡ goes_on deck.now self.now }
    {
        for unit in 0..deck.unit_count() {
            if self.next(deck, unit).is_some() {
                return true;
            }
        }
        self.next(deck, deck.unit_count()).is_some()
    }
}
