//! The resource managers.

ghost use Rattle.std.specs.Prelude.{◌≡◌, ◌≤◌, ◌==◌, ◌↔◌, not, [], ◌∷◌, length, reverse, filter, find, position, vec_capacity, IfOk, IfSome, IfNone, IsErr, OnOk, OnErr, Some};
ghost use Rattle.std.specs.Option.{ok_or};
ghost use Rattle.rtm_model.specs.Ending.{is_same_task, is_of_task, is_equal_manager, newest_manager, after_delete, next_manager, without_manager, without_managers_of};
ghost use Rattle.rtm_model.specs.Limits.{most_managers};
ghost use Rattle.rtm_model.specs.inner.Newest.{IsNewest, IsAbsent};
ghost use Rattle.rtm_ending.specs.Refused.{not_found};

use crate::refused::NotFound;
use rtm_codes::NoMemory;
use rtm_model::{Full, MOST_MANAGERS, Manager1};
use std::alloc::Global;
use std::marker::Model;

/// The resource managers of all tasks and of the address space (Authorized Assembler Services Guide, "Using resource
/// managers"), at most `MOST_MANAGERS`.
///
/// A contract sees them as one list, newest first. A manager's birth is the index of the entry that added it. In each
/// call the task is a unit's number, and None means the address space.
#[derive(Drop)]
pub struct Managers {
    list: Vec<Manager1>,
}

impl Model for Managers {
    ghost use Rattle.std.specs.Prelude.{◌≤◌, List, length, reverse, vec_capacity};
    ghost use Rattle.rtm_model.specs.declared.holding.Manager1.{Manager1};
    ghost use Rattle.rtm_model.specs.Limits.{most_managers};

    ghost Value = { List Manager1 };

    ghost view = { λ a. reverse a.list.items };

    ghost invariant = { λ a. (length a.list.items ≤ most_managers)
        × (most_managers ≤ vec_capacity a.list) };
}

fn is_same_task(one: Option<u16>, other: Option<u16>) -> bool
    ensures { result ≡ is_same_task one other }
{
    match (one, other) {
        (None, None) => true,
        (Some(one), Some(other)) => one == other,
        _ => false,
    }
}

fn is_of_task(manager: &Manager1, task: Option<u16>) -> bool
    ensures { result ≡ is_of_task task manager.now }
{
    is_same_task(manager.task, task)
}

fn is_equal(manager: &Manager1, prog: u16, task: Option<u16>) -> bool
    ensures { result ≡ is_equal_manager prog task manager.now }
{
    manager.prog == prog && is_of_task(manager, task)
}

fn is_born_at(manager: &Manager1, born: u32) -> bool
    ensures { result ≡ (manager.now.born == born) }
{
    manager.born == born
}

// How many managers are newer than the newest one of that program and task.
fn newer_than_newest(list: &[Manager1], prog: u16, task: Option<u16>) -> Option<usize>
    ensures { result ≡ position (is_equal_manager prog task) (reverse list.now) }
{
    list.iter()
        .rev()
        .copied()
        .position(|manager| is_equal(&manager, prog, task))
}

// Where the newest manager of that program and task stands.
fn newest_index(list: &[Manager1], prog: u16, task: Option<u16>) -> Option<usize>
    ensures there { IfSome result (IsNewest (is_equal_manager prog task) list.now) }
    ensures absent { IfNone result (IsAbsent (is_equal_manager prog task) list.now) }
{
    match newer_than_newest(list, prog, task) {
        Some(newer) => Some(list.len() - 1 - newer),
        None => None,
    }
}

fn newest_of(list: &[Manager1], prog: u16, task: Option<u16>) -> Option<Manager1>
    ensures { result ≡ find (is_equal_manager prog task) (reverse list.now) }
{
    list.iter()
        .rev()
        .copied()
        .find(|manager| is_equal(manager, prog, task))
}

fn newest_of_task(list: &[Manager1], task: Option<u16>) -> Option<Manager1>
    ensures { result ≡ next_manager task (reverse list.now) }
{
    list.iter()
        .rev()
        .copied()
        .find(|manager| is_of_task(manager, task))
}

fn newest_born_at(list: &[Manager1], born: u32) -> Option<Manager1>
    ensures { result ≡ find (λ manager. manager.born == born) (reverse list.now) }
{
    list.iter()
        .rev()
        .copied()
        .find(|manager| is_born_at(manager, born))
}

fn drop_born(list: &mut Vec<Manager1>, born: u32)
    ensures items { list.new.items ≡ filter (λ manager. not (manager.born == born)) list.old.items }
    ensures shorter { length list.new.items ≤ length list.old.items }
    ensures capacity { vec_capacity list.new ≡ vec_capacity list.old }
{
    list.retain(|manager| manager.born != born);
}

fn drop_task(list: &mut Vec<Manager1>, task: u16)
    ensures items { list.new.items
        ≡ filter (λ manager. not (is_of_task (Some task) manager)) list.old.items }
    ensures shorter { length list.new.items ≤ length list.old.items }
    ensures capacity { vec_capacity list.new ≡ vec_capacity list.old }
{
    list.retain(|manager| !is_of_task(manager, Some(task)));
}

impl Managers {
    /// No manager, and room for as many as may be.
    pub fn with_room(alloc: Global) -> Result<Managers, NoMemory>
        ensures { IfOk result (λ managers. managers ≡ []) }
    {
        Ok(Managers {
            list: Vec::with_capacity(alloc, MOST_MANAGERS)?,
        })
    }

    /// Whether there are as many managers as there may be, so that RESMGR ADD is the error EE5 (this profile).
    pub fn is_full(&self) -> bool
        ensures { result ≡ (length self.now == most_managers) }
    {
        self.list.len() == MOST_MANAGERS
    }

    /// RESMGR ADD: one more manager, the newest. `Full` where as many are there as may be, of tasks and of the
    /// address space together.
    pub fn add(&mut self, mgr: Manager1) -> Result<(), Full>
        ensures full { IsErr result ↔ (length self.old ≡ most_managers) }
        ensures ok { OnOk result (self.new ≡ mgr ∷ self.old) }
        ensures err { OnErr result (self.new ≡ self.old) }
    {
        if self.list.len() == MOST_MANAGERS {
            return Err(Full);
        }
        self.list.push_reserved(mgr);
        Ok(())
    }

    /// The manager that RESMGR DELETE would take away: the newest of that program and task.
    pub fn find(&self, prog: u16, task: Option<u16>) -> Option<Manager1>
        ensures { result ≡ newest_manager prog task self.now }
    {
        newest_of(&self.list, prog, task)
    }

    /// RESMGR DELETE: takes the newest manager of that program and task away. `NotFound` where there is none.
    pub fn delete(&mut self, prog: u16, task: Option<u16>) -> Result<Manager1, NotFound>
        ensures which { result ≡ ok_or (newest_manager prog task self.old) not_found }
        ensures list { self.new ≡ after_delete prog task self.old }
        ensures err { OnErr result (self.new ≡ self.old) }
    {
        match newest_index(&self.list, prog, task) {
            Some(index) => Ok(self.list.remove(index)),
            None => Err(NotFound),
        }
    }

    /// The manager that gets control next when that task, or the address space, ends: the newest.
    pub fn next(&self, task: Option<u16>) -> Option<Manager1>
        ensures { result ≡ next_manager task self.now }
    {
        newest_of_task(&self.list, task)
    }

    /// The manager that was born at that entry.
    pub fn manager_born_at(&self, born: u32) -> Option<Manager1>
        ensures { result ≡ find (λ manager. manager.born == born) self.now }
    {
        newest_born_at(&self.list, born)
    }

    /// A manager's routine was left: takes the manager away that was born at that entry, if it is there.
    #[tactic(auto, using(crate::proofs::Backwards::reverse_filter))]
    pub fn left(&mut self, born: u32)
        ensures { self.new ≡ without_manager born self.old }
    {
        drop_born(&mut self.list, born);
    }

    /// A task was purged, and its managers go.
    #[tactic(auto, using(crate::proofs::Backwards::reverse_filter))]
    pub fn drop_task(&mut self, task: u16)
        ensures { self.new ≡ without_managers_of task self.old }
    {
        drop_task(&mut self.list, task);
    }
}
