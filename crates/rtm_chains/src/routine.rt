//! What a list of routines holds, and walks along such a list: the oldest stands first, the newest last.

ghost use Rattle.std.specs.Prelude.{◌≡◌, ◌<◌, ◌==◌, ◌&&◌, ◌||◌, nat_le, not, length, reverse, find, position, slice_index_or, slice_set, IfSome, IfNone};
ghost use Rattle.rtm_model.specs.OwnChange.{routine_born_at};
ghost use Rattle.rtm_model.specs.Chains.{is_of_depth, is_of_owner, is_admitted, if_of_owner, newest_of, next_estae, next_estai};
ghost use Rattle.rtm_model.specs.inner.Newest.{IsNewest, IsAbsent};

use rtm_model::{Kind, Reg};
use std::marker::Model;
use std::mem;

/// A place of a list: a routine, or a blank where the FRR stack has none.
#[derive(Clone, Copy)]
pub(crate) struct Routine {
    pub(crate) reg: Reg,
}

impl Model for Routine {
    ghost use Rattle.rtm_model.specs.declared.reg.Reg.{Reg};

    ghost Value = { Reg };

    ghost view = { λ a. a.reg };

    ghost inverse = { λ reg. record { reg = reg } };
}

impl Default for Routine {
    fn default() -> Routine {
        Routine {
            reg: Reg {
                kind: Kind::Frr,
                born: 0,
                owner: 0,
                depth: 0,
                prog: 0,
                term: false,
                cancel: false,
                xctl: false,
            },
        }
    }
}

impl Routine {
    pub(crate) fn is_of_depth(&self, depth: u8) -> bool
        ensures { result ≡ is_of_depth depth self.now }
    {
        self.reg.depth == depth
    }

    pub(crate) fn is_of_owner(&self, owner: u32) -> bool
        ensures { result ≡ is_of_owner owner self.now }
    {
        self.reg.owner == owner
    }

    pub(crate) fn is_born_at(&self, born: u32) -> bool
        ensures { result ≡ (self.now.born == born) }
    {
        self.reg.born == born
    }

    pub(crate) fn is_admitted(&self, term_only: bool) -> bool
        ensures { result ≡ is_admitted term_only self.now }
    {
        !term_only || self.reg.term
    }

    /// Whether a request block made it that isn't newer than the one of that birth.
    pub(crate) fn is_of_older_owner(&self, born: u32) -> bool
        ensures { result ≡ nat_le self.now.owner born }
    {
        self.reg.owner <= born
    }

    pub(crate) fn outlives_xctl(&self, owner: u32) -> bool
        ensures { result ≡ (not (is_of_owner owner self.now) || self.now.xctl) }
    {
        !self.is_of_owner(owner) || self.reg.xctl
    }

    fn is_eligible(&self, depth: u8, term_only: bool) -> bool
        ensures { result ≡ (is_of_depth depth self.now && is_admitted term_only self.now) }
    {
        self.is_of_depth(depth) && self.is_admitted(term_only)
    }
}

pub(crate) fn reg_of(routine: Option<Routine>) -> Option<Reg>
    ensures { result ≡ routine }
{
    match routine {
        Some(routine) => Some(routine.reg),
        None => None,
    }
}

/// The routine, where that request block made it.
pub(crate) fn if_of_owner(owner: u32, routine: Option<Routine>) -> Option<Reg>
    ensures { result ≡ if_of_owner owner routine }
{
    match routine {
        Some(routine) if routine.is_of_owner(owner) => Some(routine.reg),
        _ => None,
    }
}

/// The first routine that was born at that entry.
pub(crate) fn first_born_at(list: &[Routine], born: u32) -> Option<Routine>
    ensures { result ≡ routine_born_at born list.now }
{
    list.iter()
        .copied()
        .find(|routine| routine.is_born_at(born))
}

/// The newest routine that was born at that entry.
pub(crate) fn newest_born_at(list: &[Routine], born: u32) -> Option<Routine>
    ensures { result ≡ routine_born_at born (reverse list.now) }
{
    list.iter()
        .rev()
        .copied()
        .find(|routine| routine.is_born_at(born))
}

/// The newest routine of the bracket of that depth.
pub(crate) fn newest_of(list: &[Routine], depth: u8) -> Option<Routine>
    ensures { result ≡ newest_of depth (reverse list.now) }
{
    list.iter()
        .rev()
        .copied()
        .find(|routine| routine.is_of_depth(depth))
}

/// The newest routine of the bracket that is admitted.
pub(crate) fn next_estae(list: &[Routine], depth: u8, term_only: bool) -> Option<Routine>
    ensures { result ≡ next_estae depth term_only (reverse list.now) }
{
    list.iter()
        .rev()
        .copied()
        .find(|routine| routine.is_eligible(depth, term_only))
}

/// The first routine that is admitted.
pub(crate) fn next_estai(list: &[Routine], term_only: bool) -> Option<Routine>
    ensures { result ≡ next_estai term_only list.now }
{
    list.iter()
        .copied()
        .find(|routine| routine.is_admitted(term_only))
}

// How many routines are newer than the newest one of the bracket of that depth.
fn newer_than_newest(list: &[Routine], depth: u8) -> Option<usize>
    ensures { result ≡ position (is_of_depth depth) (reverse list.now) }
{
    list.iter()
        .rev()
        .copied()
        .position(|routine| routine.is_of_depth(depth))
}

/// Where the newest routine of the bracket of that depth stands.
pub(crate) fn newest_index(list: &[Routine], depth: u8) -> Option<usize>
    ensures there { IfSome result (IsNewest (is_of_depth depth) list.now) }
    ensures absent { IfNone result (IsAbsent (is_of_depth depth) list.now) }
{
    match newer_than_newest(list, depth) {
        Some(newer) => Some(list.len() - 1 - newer),
        None => None,
    }
}

/// Puts a routine in another's place, and gives the other.
pub(crate) fn replace_at(list: &mut [Routine], index: usize, reg: Reg) -> Reg
    requires { index < length list.old }
    ensures value { result ≡ slice_index_or list.old index result }
    ensures after { list.new ≡ slice_set list.old index reg }
{
    let old = mem::replace(&mut list[index], Routine { reg });
    old.reg
}
