//! The holdings of one owner and one class.

ghost use Rattle.std.specs.Prelude.{◌≡◌, ◌<◌, ◌≤◌, ◌==◌, [], ◌∷◌, length, reverse, find, position, remove, slice_get, slice_index_or, vec_capacity, IfOk, IfSome, IfNone};
ghost use Rattle.rtm_model.specs.Chains.{without_first};
ghost use Rattle.rtm_model.specs.Ending.{is_of_id, without_holding};
ghost use Rattle.rtm_model.specs.Limits.{most_holdings};
ghost use Rattle.rtm_model.specs.inner.Newest.{IsNewest, IsAbsent};
ghost use Rattle.rtm_ending.specs.View.{births_at};

use rtm_codes::NoMemory;
use rtm_model::{Holding, MOST_HOLDINGS};
use std::alloc::Global;
use std::marker::Model;

/// What an owner holds of a class, with room for all that an owner may hold.
///
/// A contract sees it as the list of its holdings, newest first; the vector has the oldest first.
#[derive(Drop)]
pub(crate) struct ClassList {
    list: Vec<Holding>,
}

impl Model for ClassList {
    ghost use Rattle.std.specs.Prelude.{◌≤◌, List, reverse, vec_capacity};
    ghost use Rattle.rtm_model.specs.declared.holding.Holding.{Holding};
    ghost use Rattle.rtm_model.specs.Limits.{most_holdings};

    ghost Value = { List Holding };

    ghost view = { λ a. reverse a.list.items };

    ghost invariant = { λ a. most_holdings ≤ vec_capacity a.list };
}

fn is_of_id(holding: &Holding, id: u32) -> bool
    ensures { result ≡ is_of_id id holding.now }
{
    holding.id == id
}

fn is_born_at(holding: &Holding, born: u32) -> bool
    ensures { result ≡ (holding.now.born == born) }
{
    holding.born == born
}

// How many holdings are newer than the newest one of that number.
fn newer_than_newest(list: &[Holding], id: u32) -> Option<usize>
    ensures { result ≡ position (is_of_id id) (reverse list.now) }
{
    list.iter()
        .rev()
        .copied()
        .position(|holding| is_of_id(&holding, id))
}

// Where the newest holding of that number stands.
fn newest_index(list: &[Holding], id: u32) -> Option<usize>
    ensures there { IfSome result (IsNewest (is_of_id id) list.now) }
    ensures absent { IfNone result (IsAbsent (is_of_id id) list.now) }
{
    match newer_than_newest(list, id) {
        Some(newer) => Some(list.len() - 1 - newer),
        None => None,
    }
}

fn newest_of_id(list: &[Holding], id: u32) -> Option<Holding>
    ensures { result ≡ find (is_of_id id) (reverse list.now) }
{
    list.iter()
        .rev()
        .copied()
        .find(|holding| is_of_id(holding, id))
}

// How many holdings are newer than the one that was born at that entry.
fn newer_than_born(list: &[Holding], born: u32) -> Option<usize>
    ensures { result ≡ position (λ holding. holding.born == born) (reverse list.now) }
{
    list.iter()
        .rev()
        .copied()
        .position(|holding| is_born_at(&holding, born))
}

// Where the holding stands that was born at that entry.
fn born_index(list: &[Holding], born: u32) -> Option<usize>
    ensures there { IfSome result (IsNewest (λ holding. holding.born == born) list.now) }
    ensures absent { IfNone result (IsAbsent (λ holding. holding.born == born) list.now) }
{
    match newer_than_born(list, born) {
        Some(newer) => Some(list.len() - 1 - newer),
        None => None,
    }
}

// Takes the holding away that stands there, and gives it.
fn unlink(list: &mut Vec<Holding>, index: usize) -> Holding
    requires { index < length list.old.items }
    ensures value { result ≡ slice_index_or list.old.items index result }
    ensures items { list.new.items ≡ remove list.old.items index }
    ensures capacity { vec_capacity list.new ≡ vec_capacity list.old }
    ensures shorter { length list.new.items ≤ length list.old.items }
{
    list.remove(index)
}

// Takes the newest holding away that was born at that entry, if one is there.
fn drop_born(list: &mut Vec<Holding>, born: u32)
    ensures items { reverse list.new.items
        ≡ without_first (λ holding. holding.born == born) (reverse list.old.items) }
    ensures capacity { vec_capacity list.new ≡ vec_capacity list.old }
    ensures shorter { length list.new.items ≤ length list.old.items }
{
    if let Some(index) = born_index(list, born) {
        let _dropped = unlink(list, index);
    }
}

impl ClassList {
    /// A list with no holding, and room for all that an owner may hold.
    pub(crate) fn with_room(alloc: Global) -> Result<ClassList, NoMemory>
        ensures { IfOk result (λ list. list ≡ []) }
    {
        Ok(ClassList {
            list: Vec::with_capacity(alloc, MOST_HOLDINGS)?,
        })
    }

    pub(crate) fn len(&self) -> usize
        ensures { result ≡ length self.now }
    {
        self.list.len()
    }

    /// The newest holding.
    pub(crate) fn newest(&self) -> Option<Holding>
        ensures { result ≡ slice_get self.now 0 }
    {
        self.list.last().copied()
    }

    /// The newest holding of that number.
    pub(crate) fn find(&self, id: u32) -> Option<Holding>
        ensures { result ≡ find (is_of_id id) self.now }
    {
        newest_of_id(&self.list, id)
    }

    /// One more holding, the newest.
    pub(crate) fn put(&mut self, holding: Holding)
        requires room { length self.old < most_holdings }
        ensures { self.new ≡ holding ∷ self.old }
    {
        self.list.push_reserved(holding);
    }

    /// Takes the newest holding of that number away, and gives it.
    pub(crate) fn take(&mut self, id: u32) -> Option<Holding>
        ensures which { result ≡ find (is_of_id id) self.old }
        ensures list { self.new ≡ without_first (is_of_id id) self.old }
        ensures absent { IfNone result (self.new ≡ self.old) }
        ensures shorter { length self.new ≤ length self.old }
    {
        match newest_index(&self.list, id) {
            Some(index) => Some(unlink(&mut self.list, index)),
            None => None,
        }
    }

    /// Takes the holding away that was born at that entry, if it is there. No other one of the list was born there.
    pub(crate) fn release(&mut self, born: u32)
        requires distinct { births_at born self.old ≤ 1 }
        ensures list { self.new ≡ without_holding born self.old }
        ensures shorter { length self.new ≤ length self.old }
    {
        drop_born(&mut self.list, born);
    }
}
