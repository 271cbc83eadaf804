//! What an executed card changes beyond its own unit's control blocks.

ghost use Rattle.std.specs.Prelude.{◌≡◌, ◌<◌, ◌≤◌, ◌+◌, ◌==◌, ◌∷◌, length, None, Some, [], IsTrue, if◌then◌else◌};
ghost use Rattle.rtm_model.specs.Births.{new_estai};
ghost use Rattle.rtm_model.specs.Posts.{post_to};
ghost use Rattle.rtm_model.specs.Advance.{after_attach, beyond_card, with_unit};
ghost use Rattle.rtm_model.specs.Ending.{after_get, after_free, after_delete};
ghost use Rattle.rtm_model.specs.Limits.{most_managers, words};
ghost use Rattle.rtm_model.specs.Surroundings.{manager_task};
ghost use Rattle.rtm_model.specs.World.{unborn_unit, unit_at};
ghost use Rattle.rtm_system_world.specs.Shape.{IsShaped};
ghost use Rattle.rtm_system_world.specs.Beyond.{CanBeAttached, CanBeBorn, CanGoBeyond, CanHold, is_of_units};

use crate::surroundings::manager_task;
use crate::world::World;
use crate::{posted, units};
use rtm_deck_items::{Deck, Op, Res};
use rtm_model::{Abort, Holding, Kind, Manager1, Reg};

// The ESTAI routine that ATTACHX names, if it names one.
fn new_estai(index: u32, term: bool, prog: Option<u16>) -> Option<Reg>
    ensures { result ≡ new_estai index term prog }
{
    match prog {
        None => None,
        Some(prog) => Some(Reg {
            kind: Kind::Estai,
            born: index,
            owner: 0,
            depth: 0,
            prog,
            term,
            cancel: true,
            xctl: false,
        }),
    }
}

impl World {
    /// An abort is posted to a unit.
    pub(crate) fn post(&mut self, unit: u16, abort: Abort)
        requires { unit < length self.old.units }
        ensures { self.new ≡ post_to unit abort self.old }
    {
        let late = self.is_late(unit);
        units::post_at(&mut self.units, unit, abort, late);
    }

    // SCHEDULE: an SRB is born.
    fn schedule(&mut self, deck: &Deck, index: u32, unit: u16)
        requires born { CanBeBorn self.old unit }
        requires index { index + 1 < words }
        ensures { self.new ≡ with_unit deck.now index unit None [] self.old }
    {
        let _born = self.tree.schedule(unit);
        units::be_born_at(&mut self.units, unit, index + 1, deck.program_of(unit));
    }

    // ATTACHX: a task is born.
    fn attach(
        &mut self,
        deck: &Deck,
        index: u32,
        mother: u16,
        unit: u16,
        estai: Option<u16>,
        term: bool,
    )
        requires shape { IsShaped deck.now self.old }
        requires born { CanBeAttached index self.old mother unit (new_estai index term estai) }
        requires mother { mother < length deck.now.units }
        requires index { index + 1 < words }
        ensures { self.new ≡ after_attach deck.now index mother unit estai term self.old }
    {
        let _born = self.tree.attach(mother, unit);
        let own = new_estai(index, term, estai);
        let prog = deck.program_of(unit);
        units::be_attached_at(&mut self.units, unit, mother, index + 1, prog, own);
    }

    // GET.
    fn get(&mut self, deck: &Deck, index: u32, unit: u16, class: Res, id: u32)
        requires hold { CanHold deck.now index self.old unit }
        requires shape { length self.old.holdings ≡ length deck.now.units + 1 }
        ensures { self.new
            ≡ record self.old {
              holdings = after_get
                  (record { born = index; class = class; id = id; owner = unit })
                  self.old.holdings;
            } }
    {
        let _got = self.holdings.get(Holding {
            born: index,
            class,
            id,
            owner: unit,
        });
    }

    /// FREE, and a release at an end: the newest equal holding goes.
    pub(crate) fn free(&mut self, unit: u16, class: Res, id: u32)
        ensures { self.new
            ≡ record self.old { holdings = after_free unit class id self.old.holdings } }
    {
        let _freed = self.holdings.free(unit, class, id);
    }

    // RESMGR ADD.
    fn add_manager(&mut self, index: u32, prog: u16, task: Option<u16>)
        requires { length self.old.managers < most_managers }
        ensures { self.new
            ≡ record self.old
            { managers = record { born = index; prog = prog; task = task } ∷ self.old.managers } }
    {
        let _added = self.managers.add(Manager1 {
            born: index,
            prog,
            task,
        });
    }

    // RESMGR DELETE.
    fn delete_manager(&mut self, prog: u16, task: Option<u16>)
        ensures { self.new
            ≡ record self.old { managers = after_delete prog task self.old.managers } }
    {
        let _deleted = self.managers.delete(prog, task);
    }

    // Cards that make or abort units.
    fn go_on_with_units(&mut self, deck: &Deck, index: u32, unit: u16, rc: u8, op: &Op)
        requires shape { IsShaped deck.now self.old }
        requires can { CanGoBeyond deck.now index self.old unit rc op.now }
        requires units { IsTrue (is_of_units op.now) }
        requires index { index + 1 < words }
        ensures { self.new ≡ beyond_card deck.now index unit rc op.now self.old }
    {
        match *op {
            Op::Attachx {
                unit: task,
                estai,
                term,
            } => {
                if rc == 0 {
                    self.attach(deck, index, unit, task, estai, term);
                }
            }
            Op::Schedule { unit: srb } => {
                if rc == 0 {
                    self.schedule(deck, index, srb);
                }
            }
            Op::Detach { unit: task, stae } => self.post(task, posted::detach_abort(index, stae)),
            Op::Abterm {
                unit: task,
                code,
                reason,
                dump,
                retry,
            } => self.post(task, posted::abterm_abort(index, code, reason, dump, retry)),
            _ => {}
        }
    }

    /// What a card that was executed with that return code changes beyond its own unit's control blocks.
    pub(crate) fn go_beyond_card(&mut self, deck: &Deck, index: u32, unit: u16, rc: u8, op: &Op)
        requires shape { IsShaped deck.now self.old }
        requires owners { length self.old.holdings ≡ length deck.now.units + 1 }
        requires can { CanGoBeyond deck.now index self.old unit rc op.now }
        requires index { index + 1 < words }
        ensures { self.new ≡ beyond_card deck.now index unit rc op.now self.old }
    {
        match *op {
            Op::Get { class, id } => self.get(deck, index, unit, class, id),
            Op::Free { class, id } => self.free(unit, class, id),
            Op::MgrAdd { prog, space } => self.add_manager(index, prog, manager_task(unit, space)),
            Op::MgrDelete { prog, space } => self.delete_manager(prog, manager_task(unit, space)),
            Op::Memterm { code } => self.memory_end = Some(code),
            Op::Post { event } => {
                let _new = self.tree.post_event(event);
            }
            Op::Attachx { .. } | Op::Schedule { .. } | Op::Detach { .. } | Op::Abterm { .. } => {
                self.go_on_with_units(deck, index, unit, rc, op);
            }
            _ => {}
        }
    }
}
