//! Changes of one unit among all.

ghost use Rattle.std.specs.Prelude.{◌≡◌, ◌<◌, ◌≤◌, ◌+◌, ◌==◌, length, slice_set, [], is_some, if◌then◌else◌};
ghost use Rattle.rtm_model.specs.Aborts.{first_abort};
ghost use Rattle.rtm_model.specs.Posts.{with_posted, post_to_subtasks};
ghost use Rattle.rtm_model.specs.OwnChange.{own_change};
ghost use Rattle.rtm_model.specs.Advance.{purged_core};
ghost use Rattle.rtm_model.specs.Chains.{inherited_estais};
ghost use Rattle.rtm_cards.specs.Limits.{most_units};
ghost use Rattle.rtm_model.specs.Limits.{most_estais, words};
ghost use Rattle.rtm_model.specs.World.{Core, at_birth, on_unit, unborn_unit, unit_at};
ghost use Rattle.rtm_model.specs.Tasks.{Tree, life_of};
ghost use Rattle.rtm_system_world.specs.Posting.{post_if_subtask};
ghost use Rattle.rtm_system_unit.specs.Applying.{CanApplyTo};

use rtm_deck_items::Deck;
use rtm_ending::Managers;
use rtm_model::{Abort, Reg, What};
use rtm_system_unit::UnitOfWork;
use rtm_tasks::TaskTree;

/// An entry changes its own unit.
pub(crate) fn change_own(
    units: &mut Vec<UnitOfWork>,
    deck: &Deck,
    index: u32,
    managers: &Managers,
    unit: u16,
    what: &What,
)
    requires in_range { unit < length units.old.items }
    requires can { CanApplyTo deck.now (unit_at unit units.old.items).core managers.now
        (first_abort (unit_at unit units.old.items).pending) what.now }
    requires index { index + 1 < words }
    ensures { units.new.items
        ≡ on_unit unit (own_change deck.now index managers.now what.now) units.old.items }
{
    units[unit as usize].apply(deck, index, managers, what);
}

/// An abort is posted to a unit.
pub(crate) fn post_at(units: &mut Vec<UnitOfWork>, unit: u16, abort: Abort, late: bool)
    requires in_range { unit < length units.old.items }
    ensures { units.new.items ≡ on_unit unit (with_posted late abort) units.old.items }
{
    let _fate = units[unit as usize].post(abort, late);
}

/// One more command of a unit has arrived.
pub(crate) fn count_arrival_at(units: &mut Vec<UnitOfWork>, unit: u16)
    requires in_range { unit < length units.old.items }
    requires few { (unit_at unit units.old.items).arrived < 255 }
    ensures { units.new.items
        ≡ on_unit unit (λ unit. record unit { arrived = unit.arrived + 1 }) units.old.items }
{
    units[unit as usize].count_arrival();
}

/// Memory end takes a unit away.
pub(crate) fn purge_at(units: &mut Vec<UnitOfWork>, unit: u16)
    requires in_range { unit < length units.old.items }
    ensures { units.new.items
        ≡ on_unit unit
        (λ unit. record unit { core = purged_core unit.core; pending = [] }) units.old.items }
{
    units[unit as usize].purge();
}

/// An SRB is born.
pub(crate) fn be_born_at(units: &mut Vec<UnitOfWork>, unit: u16, born: u32, prog: u16)
    requires in_range { unit < length units.old.items }
    requires unborn { unit_at unit units.old.items ≡ unborn_unit }
    ensures { units.new.items ≡ on_unit unit (at_birth born prog []) units.old.items }
{
    units[unit as usize].be_born(born, prog);
}

/// A task is born, a subtask of that unit: it has the ESTAI routine that its own ATTACHX names, if it names one, and
/// those of the unit that attaches it.
pub(crate) fn be_attached_at(
    units: &mut Vec<UnitOfWork>,
    unit: u16,
    mother: u16,
    born: u32,
    prog: u16,
    own: Option<Reg>,
)
    requires in_range { unit < length units.old.items }
    requires mother { mother < length units.old.items }
    requires other { unit ≡ mother → ⊥ }
    requires unborn { unit_at unit units.old.items ≡ unborn_unit }
    requires room { length
        (inherited_estais own (Core.estais (unit_at mother units.old.items).core)) ≤ most_estais }
    ensures { units.new.items
        ≡ on_unit unit
        (at_birth born prog (inherited_estais own (Core.estais (unit_at mother units.old.items).core)))
        units.old.items }
{
    if mother < unit {
        let (front, back) = units.split_at_mut(unit as usize);
        back[0].be_attached(born, prog, own, front[mother as usize].estais());
    } else {
        let (front, back) = units.split_at_mut(mother as usize);
        front[unit as usize].be_attached(born, prog, own, back[0].estais());
    }
}

// An abort is posted to a unit, if it is a living subtask of that task.
fn post_if_subtask(
    units: &mut Vec<UnitOfWork>,
    tree: &TaskTree,
    mother: u16,
    unit: u16,
    abort: Abort,
)
    requires { unit < length units.old.items }
    ensures { units.new.items
        ≡ slice_set units.old.items unit
        (post_if_subtask mother abort (life_of unit (Tree.lives tree.now)) (unit_at unit units.old.items)) }
{
    if tree.is_subtask(mother, unit) {
        let late = units[unit as usize].has_begun();
        post_at(units, unit, abort, late);
    }
}

/// An abort is posted to each living subtask of a task, by number.
#[tactic(auto, using(crate::proofs::Posting::posted_step, crate::proofs::Posting::posted_all, crate::proofs::Posting::length_so_far))]
pub(crate) fn post_to_subtasks(
    units: &mut Vec<UnitOfWork>,
    tree: &TaskTree,
    unit: u16,
    abort: Abort,
)
    requires few { length (Tree.lives tree.now) ≤ most_units }
    requires shape { length (Tree.lives tree.now) < length units.old.items }
    ensures { units.new.items ≡ post_to_subtasks unit abort (Tree.lives tree.now) units.old.items }
{
    for subtask in 0..tree.unit_count() as u16 {
        post_if_subtask(units, tree, unit, subtask, abort);
    }
}
