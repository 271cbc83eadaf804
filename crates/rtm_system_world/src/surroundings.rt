//! The questions that a unit's next entry may ask of others, one by one.

ghost use Rattle.std.specs.Prelude.{◌≡◌, ◌==◌, is_some, Some, None, slice_get};
ghost use Rattle.rtm_model.specs.Aborts.{first_abort, fate_of};
ghost use Rattle.rtm_model.specs.Surroundings.{is_late, fate_in, whose, manager_task, related_fate, step_fate};
ghost use Rattle.rtm_model.specs.World.{Core, core_at, is_srb, lives_in, related_task, unit_at};

use crate::world::World;
use rtm_deck_items::Deck;
use rtm_model::{Class, Fate};
use rtm_system_unit::UnitOfWork;

// Whether the unit of that number has begun to end.
fn has_begun(units: &[UnitOfWork], unit: u16) -> bool
    ensures { result ≡ is_some (Core.begun (unit_at unit units.now).core) }
{
    match units.get(unit as usize) {
        Some(state) => state.has_begun(),
        None => false,
    }
}

// What would become of an abort of the class that is posted to the unit of that number.
fn fate_at(units: &[UnitOfWork], unit: u16, class: Class, late: bool) -> Fate
    ensures { result ≡ fate_of late class (unit_at unit units.now).pending }
{
    match units.get(unit as usize) {
        Some(state) => state.fate(class, late),
        None if late => Fate::Late,
        None => Fate::Queued,
    }
}

impl World {
    pub(crate) fn has_begun(&self, unit: u16) -> bool
        ensures { result ≡ is_some (Core.begun (core_at unit self.now)) }
    {
        has_begun(&self.units, unit)
    }

    pub(crate) fn is_late(&self, unit: u16) -> bool
        ensures { result ≡ is_late self.now unit }
    {
        !self.tree.living(unit) || has_begun(&self.units, unit)
    }

    pub(crate) fn fate_in(&self, unit: u16, class: Class) -> Fate
        ensures { result ≡ fate_in self.now unit class }
    {
        fate_at(&self.units, unit, class, self.is_late(unit))
    }

    pub(crate) fn related_fate(&self, task: Option<u16>) -> Option<Fate>
        ensures { result ≡ related_fate self.now task }
    {
        match task {
            Some(task) => Some(self.fate_in(task, Class::Srb)),
            None => None,
        }
    }

    pub(crate) fn step_fate(&self, deck: &Deck, unit: u16) -> Option<Fate>
        ensures { result ≡ step_fate deck.now self.now unit }
    {
        let job = deck.job_step();
        if unit == job {
            None
        } else {
            Some(self.fate_in(job, Class::Step))
        }
    }
}

/// The task of a manager that RESMGR names: the unit's own, or none for the address space.
pub(crate) fn manager_task(unit: u16, space: bool) -> Option<u16>
    ensures { result ≡ manager_task unit space }
{
    if space { None } else { Some(unit) }
}

/// Whose managers and holdings an ending is about: a unit's own, or at the master's all.
pub(crate) fn whose(deck: &Deck, unit: u16) -> Option<u16>
    ensures { result ≡ whose deck.now unit }
{
    if unit == deck.unit_count() {
        None
    } else {
        Some(unit)
    }
}
