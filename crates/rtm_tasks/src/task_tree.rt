//! Which units live, who attached whom, and which events are posted.

ghost use Rattle.std.specs.Prelude.{◌≡◌, ◌+◌, ◌-◌, ◌^◌, ◌<◌, ◌≤◌, ◌↔◌, ◌==◌, ℕ, not, false, true, length, map, position, List, [], Some, None, IfOk, IfSome, IsErr, OnOk, OnErr, slice_set, slice_index, slice_index_or, vec_len};
ghost use Rattle.std.specs.List.{count_by};
ghost use Rattle.rtm_model.specs.Tasks.{Life, Dormant, Lives, is_dormant, is_living, has_ended, mother_of, living_mother, is_number, is_subtask_of, life_of, has_subtask, with_birth, ended_life, with_end, lives_at_start, is_posted, with_event, tree_at_start};
ghost use Rattle.rtm_tasks.specs.Counts.{AreCounts};

use crate::events::Events;
use crate::not_dormant::NotDormant;
use crate::unit_life::UnitLife;
use rtm_codes::NoMemory;
use rtm_deck_items::{Deck, Unit};
use std::alloc::Global;
use std::marker::Model;

/// Which units live and who attached them, and which events are posted.
///
/// A contract sees the lives of the units, by number and without the master's, and the events, the one first that was
/// posted last. Units are numbered from 0, in the order of their cards. A number past the last unit's is that of a
/// dormant unit, which is never born.
#[derive(Drop)]
pub struct TaskTree {
    lives: Vec<UnitLife>,
    /// How many living subtasks each unit has.
    subtasks: Vec<usize>,
    events: Events,
}

impl Model for TaskTree {
    ghost use Rattle.std.specs.Prelude.{◌≡◌, length};
    ghost use Rattle.rtm_model.specs.Tasks.{Tree};
    ghost use Rattle.rtm_tasks.specs.Counts.{AreCounts};

    ghost Value = { Tree };

    ghost view = { λ a. record { lives = a.lives.items; events = a.events } };

    ghost invariant = { λ a. (length a.subtasks.items ≡ length a.lives.items)
        × AreCounts a.subtasks.items a.lives.items };
}

fn dormant_lives(alloc: Global, units: &[Unit]) -> Result<Vec<UnitLife>, NoMemory>
    ensures { IfOk result (λ lives. lives.items ≡ map (λ unit. Dormant) units.now) }
{
    Ok(
        units
            .iter()
            .map(|_| UnitLife::before_birth())
            .collect(alloc)?,
    )
}

fn no_subtasks(alloc: Global, units: &[Unit]) -> Result<Vec<usize>, NoMemory>
    ensures { IfOk result (λ counts. counts.items ≡ map (λ unit. 0) units.now) }
{
    Ok(units.iter().map(|_| 0).collect(alloc)?)
}

fn set_life(lives: &mut Vec<UnitLife>, unit: usize, life: UnitLife)
    ensures { lives.new.items ≡ slice_set lives.old.items unit life }
{
    if unit < lives.len() {
        lives[unit] = life;
    }
}

fn is_dormant(lives: &[UnitLife], unit: u16) -> bool
    ensures { result ≡ is_dormant (life_of unit lives.now) }
{
    match lives.get(unit as usize) {
        Some(life) => life.is_dormant(),
        None => true,
    }
}

fn is_living(lives: &[UnitLife], unit: u16) -> bool
    ensures { result ≡ is_living (life_of unit lives.now) }
{
    match lives.get(unit as usize) {
        Some(life) => life.is_living(),
        None => false,
    }
}

fn has_ended(lives: &[UnitLife], unit: u16) -> bool
    ensures { result ≡ has_ended (life_of unit lives.now) }
{
    match lives.get(unit as usize) {
        Some(life) => life.has_ended(),
        None => false,
    }
}

fn mother_of(lives: &[UnitLife], unit: u16) -> Option<u16>
    ensures { result ≡ mother_of (life_of unit lives.now) }
{
    match lives.get(unit as usize) {
        Some(life) => life.mother(),
        None => None,
    }
}

fn living_mother(lives: &[UnitLife], unit: u16) -> Option<u16>
    ensures { result ≡ living_mother (life_of unit lives.now) }
{
    match lives.get(unit as usize) {
        Some(life) => life.living_mother(),
        None => None,
    }
}

// The number of the first unit that lives.
fn first_living(lives: &[UnitLife]) -> Option<usize>
    ensures which { result ≡ position is_living lives.now }
    ensures within { IfSome result (λ unit. unit < length lives.now) }
{
    lives.iter().position(|life| life.is_living())
}

fn is_number(number: u16, option: Option<u16>) -> bool
    ensures { result ≡ is_number number option }
{
    match option {
        Some(other) => other == number,
        None => false,
    }
}

fn ended_life(lives: &[UnitLife], unit: u16) -> UnitLife
    ensures { result ≡ ended_life (life_of unit lives.now) }
{
    match lives.get(unit as usize) {
        Some(life) => life.after_end(),
        None => UnitLife::before_birth(),
    }
}

fn subtask_count(subtasks: &[usize], unit: u16) -> usize
    ensures { result ≡ slice_index subtasks.now unit }
{
    match subtasks.get(unit as usize) {
        Some(count) => *count,
        None => 0,
    }
}

// One living subtask more.
fn add_subtask(subtasks: &mut Vec<usize>, mother: u16)
    requires in_range { mother < length subtasks.old.items }
    requires fits { slice_index subtasks.old.items mother + 1 < 2 ^ 64 }
    ensures { subtasks.new.items
        ≡ slice_set subtasks.old.items mother (slice_index subtasks.old.items mother + 1) }
{
    let count = subtask_count(subtasks, mother);
    subtasks[mother as usize] = count + 1;
}

// One living subtask less.
fn drop_subtask(subtasks: &mut Vec<usize>, mother: u16)
    requires { 0 < slice_index subtasks.old.items mother }
    ensures { subtasks.new.items
        ≡ slice_set subtasks.old.items mother (slice_index subtasks.old.items mother - 1) }
{
    let count = subtask_count(subtasks, mother);
    subtasks[mother as usize] = count - 1;
}

// A dormant unit is born of that mother.
#[tactic(auto, using(crate::proofs::Counting::room_of, crate::proofs::Counting::born_of))]
fn attach(lives: &mut Vec<UnitLife>, subtasks: &mut Vec<usize>, mother: u16, unit: u16)
    requires dormant { is_dormant (life_of unit lives.old.items) ≡ true }
    requires in_range { mother < length subtasks.old.items }
    requires counts { AreCounts subtasks.old.items lives.old.items }
    ensures lives { lives.new.items ≡ slice_set lives.old.items unit (Lives (Some mother)) }
    ensures counts { AreCounts subtasks.new.items lives.new.items }
    ensures lives_len { length lives.new.items ≡ length lives.old.items }
    ensures len { length subtasks.new.items ≡ length subtasks.old.items }
{
    if (unit as usize) < lives.len() {
        add_subtask(subtasks, mother);
        set_life(lives, unit as usize, UnitLife::at_birth(Some(mother)));
    }
}

// A dormant unit is born of no mother.
#[tactic(auto, using(crate::proofs::Counting::born_of_none))]
fn schedule(lives: &mut Vec<UnitLife>, subtasks: &[usize], unit: u16)
    requires dormant { is_dormant (life_of unit lives.old.items) ≡ true }
    requires counts { AreCounts subtasks.now lives.old.items }
    ensures lives { lives.new.items ≡ slice_set lives.old.items unit (Lives None) }
    ensures counts { AreCounts subtasks.now lives.new.items }
    ensures lives_len { length lives.new.items ≡ length lives.old.items }
{
    set_life(lives, unit as usize, UnitLife::at_birth(None));
}

// A living unit ends, and its mother has one living subtask less.
#[tactic(auto, using(crate::proofs::Counting::one_there, crate::proofs::Counting::ended_of, crate::proofs::Counting::ended_of_none))]
fn end(lives: &mut Vec<UnitLife>, subtasks: &mut Vec<usize>, unit: u16)
    requires counts { AreCounts subtasks.old.items lives.old.items }
    ensures lives { lives.new.items ≡ with_end unit lives.old.items }
    ensures counts { AreCounts subtasks.new.items lives.new.items }
    ensures lives_len { length lives.new.items ≡ length lives.old.items }
    ensures len { length subtasks.new.items ≡ length subtasks.old.items }
{
    if let Some(mother) = living_mother(lives, unit) {
        drop_subtask(subtasks, mother);
    }
    let life = ended_life(lives, unit);
    set_life(lives, unit as usize, life);
}

impl TaskTree {
    /// The units of the deck before the first entry: the job step task, which is the first task, lives, and all
    /// others are dormant. No event is posted.
    pub fn new(alloc: Global, deck: &Deck) -> Result<TaskTree, NoMemory>
        ensures { IfOk result (λ tree. tree ≡ tree_at_start deck.now) }
    {
        TaskTree::of_units(alloc, &deck.units, deck.job_step())
    }

    /// The units of those cards, where the one of the number `first` lives.
    pub(crate) fn of_units(alloc: Global, units: &[Unit], first: u16) -> Result<TaskTree, NoMemory>
        ensures { IfOk result
            (λ tree. tree ≡ record { lives = lives_at_start units.now first; events = [] }) }
    {
        let mut lives = dormant_lives(alloc, units)?;
        set_life(&mut lives, first as usize, UnitLife::at_birth(None));
        Ok(TaskTree {
            lives,
            subtasks: no_subtasks(alloc, units)?,
            events: Events::with_room(alloc)?,
        })
    }

    /// How many units there are, without the master.
    pub fn unit_count(&self) -> usize
        ensures { result ≡ length self.now.lives }
    {
        self.lives.len()
    }

    /// ATTACHX: a dormant unit is born, a subtask of the unit of the number `mother`. `NotDormant` where it was born
    /// before.
    pub fn attach(&mut self, mother: u16, unit: u16) -> Result<(), NotDormant>
        requires in_range { mother < length self.old.lives }
        ensures which { IsErr result ↔ (is_dormant (life_of unit self.old.lives) ≡ false) }
        ensures lives { self.new.lives ≡ with_birth (Some mother) unit self.old.lives }
        ensures events { self.new.events ≡ self.old.events }
    {
        if !is_dormant(&self.lives, unit) {
            return Err(NotDormant);
        }
        attach(&mut self.lives, &mut self.subtasks, mother, unit);
        Ok(())
    }

    /// SCHEDULE: a dormant unit is born, with no mother. `NotDormant` where it was born before.
    pub fn schedule(&mut self, unit: u16) -> Result<(), NotDormant>
        ensures which { IsErr result ↔ (is_dormant (life_of unit self.old.lives) ≡ false) }
        ensures lives { self.new.lives ≡ with_birth None unit self.old.lives }
        ensures events { self.new.events ≡ self.old.events }
    {
        if !is_dormant(&self.lives, unit) {
            return Err(NotDormant);
        }
        schedule(&mut self.lives, &self.subtasks, unit);
        Ok(())
    }

    /// The end of a unit, or its purge: it lives no more. Nothing where it doesn't live.
    pub fn end(&mut self, unit: u16)
        ensures lives { self.new.lives ≡ with_end unit self.old.lives }
        ensures events { self.new.events ≡ self.old.events }
    {
        end(&mut self.lives, &mut self.subtasks, unit);
    }

    /// The number of the task that attached the unit, whether it still lives or not. None for a unit that no task
    /// attached: a dormant one, the job step task, an SRB.
    pub fn mother(&self, unit: u16) -> Option<u16>
        ensures { result ≡ mother_of (life_of unit self.now.lives) }
    {
        mother_of(&self.lives, unit)
    }

    /// Whether the unit of the number `mother` attached the unit, which still lives or does not.
    pub fn has_attached(&self, mother: u16, unit: u16) -> bool
        ensures { result ≡ is_number mother (mother_of (life_of unit self.now.lives)) }
    {
        is_number(mother, mother_of(&self.lives, unit))
    }

    /// Whether the unit lives and the unit of the number `mother` attached it.
    pub fn is_subtask(&self, mother: u16, unit: u16) -> bool
        ensures { result ≡ is_subtask_of mother (life_of unit self.now.lives) }
    {
        is_number(mother, living_mother(&self.lives, unit))
    }

    /// The unit of the least number that lives, which memory end purges next. None where no unit lives.
    pub fn first_living(&self) -> Option<u16>
        requires few { length self.now.lives ≤ 2 ^ 16 }
        ensures { result ≡ position is_living self.now.lives }
    {
        match first_living(&self.lives) {
            Some(unit) => Some(unit as u16),
            None => None,
        }
    }

    /// Whether the unit was born and has not ended.
    pub fn living(&self, unit: u16) -> bool
        ensures { result ≡ is_living (life_of unit self.now.lives) }
    {
        is_living(&self.lives, unit)
    }

    /// Whether the unit was born and has ended.
    pub fn ended(&self, unit: u16) -> bool
        ensures { result ≡ has_ended (life_of unit self.now.lives) }
    {
        has_ended(&self.lives, unit)
    }

    /// Whether the unit was never born, so that ATTACHX or SCHEDULE may make it.
    pub fn is_dormant(&self, unit: u16) -> bool
        ensures { result ≡ is_dormant (life_of unit self.now.lives) }
    {
        is_dormant(&self.lives, unit)
    }

    /// Whether some task lives that the unit attached. It takes the same time for any number of units.
    #[tactic(auto, using(crate::proofs::Counting::counted))]
    pub fn subtasks_left(&self, unit: u16) -> bool
        ensures { result ≡ has_subtask unit self.now.lives }
    {
        subtask_count(&self.subtasks, unit) != 0
    }

    /// POST: true where the event was not posted before. An event stays posted (this profile).
    pub fn post_event(&mut self, event: u8) -> bool
        ensures which { result ≡ not (is_posted event self.old.events) }
        ensures events { self.new.events ≡ with_event event self.old.events }
        ensures lives { self.new.lives ≡ self.old.lives }
    {
        self.events.post(event)
    }

    /// Whether the event is posted, so that WAIT goes on.
    pub fn event_posted(&self, event: u8) -> bool
        ensures { result ≡ is_posted event self.now.events }
    {
        self.events.is_posted(event)
    }
}
