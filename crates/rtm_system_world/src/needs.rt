//! What the case of a unit's next entry asks of others, and plain constants for what it doesn't ask.

ghost use Rattle.std.specs.Prelude.{◌≡◌};
ghost use Rattle.rtm_deck_items.specs.View.{DeckView};
ghost use Rattle.rtm_deck_items.specs.declared.op.Op.TheVariants.{Return};
ghost use Rattle.rtm_model.specs.Surroundings.{op_here};
ghost use Rattle.rtm_model.specs.World.{is_srb, master, related_task, unit_at};
ghost use Rattle.rtm_system_world.specs.Needs.{is_ending, needs_of_card, needs_of_end, needs_of_master, needs_of_memory_end};

use crate::surroundings::{manager_task, whose};
use crate::world::World;
use rtm_deck_items::{Deck, Op, UnitKind};
use rtm_model::{Class, Fate, Surroundings};
use rtm_system_unit::UnitOfWork;

// What isn't asked for.
const NO_NEEDS: Surroundings = Surroundings {
    srb: false,
    abort: None,
    subtask: false,
    manager: None,
    holding: None,
    crowded: false,
    found: false,
    unborn: false,
    own: false,
    fate: Fate::Late,
    to_task: None,
    to_step: None,
};

/// Whether the unit of that number is an SRB; the master is none.
pub(crate) fn is_srb(deck: &Deck, unit: u16) -> bool
    ensures { result ≡ is_srb deck.now unit }
{
    match deck.units.get(unit as usize) {
        Some(card) => card.kind != UnitKind::Task,
        None => false,
    }
}

/// The related task of an SRB.
pub(crate) fn related_task(deck: &Deck, unit: u16) -> Option<u16>
    ensures { result ≡ related_task deck.now unit }
{
    match deck.units.get(unit as usize) {
        Some(card) => card.related,
        None => None,
    }
}

/// Whether the unit has begun to end, and no inner bracket is open.
pub(crate) fn is_ending(state: &UnitOfWork) -> bool
    ensures { result ≡ is_ending state.now.core }
{
    state.has_begun() && state.depth() == 0
}

impl World {
    // What the card asks of others, for a unit that stands at it.
    #[inline(always)]
    fn needs_of_card(&self, deck: &Deck, unit: u16, state: &UnitOfWork, op: &Op) -> Surroundings
        requires { state.now ≡ unit_at unit self.now.units }
        ensures { result ≡ needs_of_card deck.now self.now unit op.now }
    {
        let mut needs = Surroundings {
            abort: state.first_abort(),
            ..NO_NEEDS
        };
        match op {
            Op::Return => needs.subtask = self.tree.subtasks_left(unit),
            Op::Wait { event } => {
                needs.srb = is_srb(deck, unit);
                needs.found = self.tree.event_posted(*event);
            }
            Op::WaitTask { unit: task } => {
                needs.srb = is_srb(deck, unit);
                needs.found = self.tree.ended(*task);
            }
            Op::Post { event } => needs.found = self.tree.event_posted(*event),
            Op::Get { .. } => needs.crowded = self.holdings.is_full(unit),
            Op::Free { class, id } => needs.found = self.holdings.find(unit, *class, *id).is_some(),
            Op::MgrAdd { .. } => {
                needs.srb = is_srb(deck, unit);
                needs.crowded = self.managers.is_full();
            }
            Op::MgrDelete { prog, space } => {
                needs.srb = is_srb(deck, unit);
                needs.found = self
                    .managers
                    .find(*prog, manager_task(unit, *space))
                    .is_some();
            }
            Op::Attachx { unit: task, .. } => {
                needs.srb = is_srb(deck, unit);
                needs.unborn = self.tree.is_dormant(*task);
            }
            Op::Schedule { unit: srb } => needs.unborn = self.tree.is_dormant(*srb),
            Op::Detach { unit: task, .. } => {
                needs.srb = is_srb(deck, unit);
                needs.own = self.tree.has_attached(unit, *task);
                needs.fate = self.fate_in(*task, Class::Detach);
            }
            Op::Abterm { unit: task, .. } => needs.fate = self.fate_in(*task, Class::Abterm),
            Op::Link { .. }
            | Op::Xctl { .. }
            | Op::EstaexCt { .. }
            | Op::EstaexOv { .. }
            | Op::EstaexZero => needs.srb = is_srb(deck, unit),
            _ => {}
        }
        needs
    }

    /// What the card asks at which the unit stands.
    #[inline(always)]
    pub(crate) fn needs_here(&self, deck: &Deck, unit: u16, state: &UnitOfWork) -> Surroundings
        requires { state.now ≡ unit_at unit self.now.units }
        ensures { result ≡ needs_of_card deck.now self.now unit (op_here deck.now state.now.core) }
    {
        match state.card_here(deck) {
            None => self.needs_behind_the_last(unit, state),
            Some(op) => self.needs_of_card(deck, unit, state, op),
        }
    }

    // What is asked behind the last card of a program, which returns there.
    #[inline(never)]
    fn needs_behind_the_last(&self, unit: u16, state: &UnitOfWork) -> Surroundings
        requires { state.now ≡ unit_at unit self.now.units }
        ensures { (d : DeckView) → result ≡ needs_of_card d self.now unit Return }
    {
        Surroundings {
            abort: state.first_abort(),
            subtask: self.tree.subtasks_left(unit),
            ..NO_NEEDS
        }
    }

    /// What the end of the unit asks, one after the other.
    #[inline(never)]
    pub(crate) fn needs_of_end(&self, deck: &Deck, unit: u16) -> Surroundings
        ensures { result ≡ needs_of_end deck.now self.now unit }
    {
        if self.tree.subtasks_left(unit) {
            return Surroundings {
                subtask: true,
                ..NO_NEEDS
            };
        }
        let owner = whose(deck, unit);
        if let Some(manager) = self.managers.next(owner) {
            return Surroundings {
                manager: Some(manager),
                ..NO_NEEDS
            };
        }
        if let Some(holding) = self.holdings.next_release(owner) {
            return Surroundings {
                holding: Some(holding),
                ..NO_NEEDS
            };
        }
        Surroundings {
            to_task: self.related_fate(related_task(deck, unit)),
            to_step: self.step_fate(deck, unit),
            ..NO_NEEDS
        }
    }

    // What memory end asks.
    fn needs_of_memory_end(&self) -> Surroundings
        ensures { result ≡ needs_of_memory_end self.now }
    {
        if let Some(manager) = self.managers.next(None) {
            return Surroundings {
                manager: Some(manager),
                ..NO_NEEDS
            };
        }
        Surroundings {
            holding: self.holdings.next_release(None),
            ..NO_NEEDS
        }
    }

    /// What the master's next entry asks at memory end.
    #[inline(never)]
    pub(crate) fn needs_of_master(&self, deck: &Deck, state: &UnitOfWork) -> Surroundings
        requires { state.now ≡ unit_at (master deck.now) self.now.units }
        ensures { result ≡ needs_of_master deck.now self.now }
    {
        if state.depth() == 0 {
            self.needs_of_memory_end()
        } else {
            self.needs_here(deck, deck.unit_count(), state)
        }
    }
}
