//! Carries an entry out.

ghost use Rattle.std.specs.Prelude.{◌≡◌, ◌<◌, ◌≤◌, ◌+◌, ◌==◌, ◌&&◌, not, length, None, Some, Option, slice_get, if◌then◌else◌};
ghost use Rattle.std.specs.Option.{option_map_or};
ghost use Rattle.rtm_deck_items.specs.Reading.{job_step};
ghost use Rattle.rtm_model.specs.Posts.{post_related, post_step, post_to_subtasks, mother_abort};
ghost use Rattle.rtm_model.specs.OwnChange.{own_change};
ghost use Rattle.rtm_model.specs.Advance.{advance, after_arrival, beyond, after_done, managers_left, memory_end_after, after_purge, without_living};
ghost use Rattle.rtm_model.specs.World.{Core, UnitOfWork, core_at, on_unit, related_task, unit_at};
ghost use Rattle.rtm_model.specs.Aborts.{first_abort};
ghost use Rattle.rtm_model.specs.Limits.{words};
ghost use Rattle.rtm_model.specs.Tasks.{Tree};
ghost use Rattle.rtm_system_world.specs.Beyond.{CanDoBeyond};
ghost use Rattle.rtm_system_world.specs.Follows.{Follows};
ghost use Rattle.rtm_system_world.specs.Shape.{IsShaped};
ghost use Rattle.rtm_system_unit.specs.Applying.{CanApplyTo};

use crate::needs::related_task;
use crate::world::World;
use crate::{posted, units};
use rtm_codes::Code;
use rtm_deck_items::{Command, Deck};
use rtm_model::{Entry, Kind, What};
use rtm_sdwa::Sdwa;
use rtm_system_unit::card_at;

impl World {
    // An entry changes its own unit's control blocks.
    fn change_own(&mut self, deck: &Deck, index: u32, unit: u16, what: &What)
        requires in_range { unit < length self.old.units }
        requires can { CanApplyTo deck.now (core_at unit self.old) self.old.managers
            (first_abort (UnitOfWork.pending (unit_at unit self.old.units))) what.now }
        requires index { index + 1 < words }
        ensures { self.new
            ≡ record self.old {
              units = on_unit unit (own_change deck.now index self.old.managers what.now)
                  self.old.units;
            } }
    {
        units::change_own(&mut self.units, deck, index, &self.managers, unit, what);
    }

    // A command has arrived at its target, which it cancels.
    fn arrive(&mut self, index: u32, unit: u16, command: Option<Command>)
        requires in_range { unit < length self.old.units }
        requires few { UnitOfWork.arrived (unit_at unit self.old.units) < 255 }
        ensures { self.new ≡ after_arrival index unit command self.old }
    {
        if let Some(command) = command {
            self.post(unit, posted::cancel_abort(index, command.dump));
            units::count_arrival_at(&mut self.units, unit);
        }
    }

    // A unit begins to end: its subtasks are aborted.
    fn abort_subtasks(&mut self, deck: &Deck, index: u32, unit: u16)
        requires shape { IsShaped deck.now self.old }
        ensures { self.new
            ≡ record self.old {
              units = post_to_subtasks unit (mother_abort index)
                  (Tree.lives self.old.tree) self.old.units;
            } }
    {
        units::post_to_subtasks(
            &mut self.units,
            &self.tree,
            unit,
            posted::mother_abort(index),
        );
    }

    // The end of an SRB by an error reaches its related task.
    fn post_related(&mut self, index: u32, task: Option<u16>, cause: &Option<Sdwa>)
        requires { option_map_or (λ task. task) task 0 < length self.old.units }
        ensures { self.new ≡ post_related index task cause.now self.old }
    {
        if let Some(task) = task {
            if let Some(cause) = cause {
                self.post(task, posted::srb_abort(index, cause));
            }
        }
    }

    // The end of a unit by an error with STEP reaches the job step task.
    fn post_step(&mut self, index: u32, is_other: bool, job: u16, cause: &Option<Sdwa>)
        requires { job < length self.old.units }
        ensures { self.new ≡ post_step index is_other job cause.now self.old }
    {
        if let Some(cause) = cause {
            if is_other && cause.flags.ten().step {
                self.post(job, posted::step_abort(index, cause));
            }
        }
    }

    // A unit has ended.
    fn end_unit(&mut self, deck: &Deck, index: u32, unit: u16, code: Code, cause: &Option<Sdwa>)
        requires shape { IsShaped deck.now self.old }
        requires related { option_map_or (λ task. task)
            (related_task deck.now unit) 0 < length self.old.units }
        requires job { job_step deck.now < length self.old.units }
        ensures { self.new ≡ after_done deck.now index unit code cause.now self.old }
    {
        let job = deck.job_step();
        self.tree.end(unit);
        if unit == job {
            self.memory_end = Some(code);
        }
        self.post_related(index, related_task(deck, unit), cause);
        self.post_step(index, unit != job, job, cause);
    }

    // Memory end takes a unit away.
    fn purge(&mut self, unit: u16)
        requires { unit < length self.old.units }
        ensures { self.new ≡ after_purge unit self.old }
    {
        units::purge_at(&mut self.units, unit);
        self.tree.end(unit);
        self.managers.drop_task(unit);
    }

    // A routine was left; a manager's is gone.
    fn leave(&mut self, kind: Kind, born: u32)
        ensures { self.new
            ≡ record self.old { managers = managers_left kind born self.old.managers } }
    {
        if kind == Kind::Mgr {
            self.managers.left(born);
        }
    }

    // What an entry that was applied to its own unit changes beyond that one.
    fn go_beyond(&mut self, deck: &Deck, index: u32, unit: u16, what: &What)
        requires shape { IsShaped deck.now self.old }
        requires owners { length self.old.holdings ≡ length deck.now.units + 1 }
        requires unit { unit < length self.old.units }
        requires can { CanDoBeyond deck.now index self.old unit what.now }
        requires index { index + 1 < words }
        ensures { self.new ≡ beyond deck.now index unit what.now self.old }
    {
        match *what {
            What::Exec { at, rc } => {
                // Behind the last card a program returns, which changes nothing beyond its unit.
                if let Some(op) = card_at(deck, at) {
                    self.go_beyond_card(deck, index, unit, rc, op);
                }
            }
            What::Leave { kind, reg, .. } => self.leave(kind, reg),
            What::Arrive { cmd, .. } => {
                let command = command_at(deck, cmd);
                self.arrive(index, unit, command);
            }
            What::Begin { .. } => self.abort_subtasks(deck, index, unit),
            What::Release { class, id, owner } => self.free(owner, class, id),
            What::Done { code, .. } => {
                let cause = self.units[unit as usize].cause();
                self.end_unit(deck, index, unit, code, &cause);
            }
            What::Purge { unit: purged } => self.purge(purged),
            What::MemEnd => self.over = true,
            _ => {}
        }
    }
}

impl World {
    /// Carries an entry out that may stand after those before it, of which `index` is the number.
    #[tactic(auto, using(crate::proofs::Applying::shape_after, crate::proofs::Applying::owners_are, crate::proofs::Applying::unit_after))]
    pub fn apply(&mut self, deck: &Deck, index: u32, entry: &Entry)
        requires follows { Follows deck.now index self.old entry.now }
        requires index { index + 1 < words }
        ensures { self.new ≡ advance deck.now self.old index entry.now }
    {
        deck.keeps_its_form();
        self.change_own(deck, index, entry.unit, &entry.what);
        self.go_beyond(deck, index, entry.unit, &entry.what);
    }
}

// The operator's command of that number.
fn command_at(deck: &Deck, cmd: u8) -> Option<Command>
    ensures { result ≡ slice_get deck.now.commands cmd }
{
    match deck.commands.get(cmd as usize) {
        Some(command) => Some(*command),
        None => None,
    }
}
