//! The ESTAE routines of a unit.

ghost use Rattle.std.specs.Prelude.{◌≡◌, ◌≤◌, ◌==◌, ◌||◌, ◌↔◌, nat_le, not, [], ◌∷◌, length, reverse, filter, vec_capacity, IfOk, IfSome, IfNone, IsErr, OnOk, OnErr, None};
ghost use Rattle.std.specs.Option.{ok_or};
ghost use Rattle.rtm_model.specs.OwnChange.{routine_born_at, without_newer_owners};
ghost use Rattle.rtm_model.specs.Chains.{is_of_depth, is_of_owner, newest_of, newest_owned, if_of_owner, next_estae, after_cancel, after_overlay, without_first, with_in_place, without_born, without_depth, without_owner, after_xctl};
ghost use Rattle.rtm_model.specs.Limits.{most_estaes};
ghost use Rattle.rtm_chains.specs.Newest.{IsNewestOwned};
ghost use Rattle.rtm_chains.specs.Refused.{not_owned};

use crate::refused::NotOwned;
use crate::routine::{self, Routine};
use rtm_codes::NoMemory;
use rtm_model::{Full, MOST_ESTAES, Reg};
use std::alloc::Global;
use std::marker::Model;

/// The ESTAE routines of a unit (Authorized Assembler Services Guide, "Providing recovery"), at most `MOST_ESTAES`.
///
/// A contract sees the chain as the list of its routines, newest first. A depth is 0 for the outermost bracket of the
/// unit and one more for each inner one, at most `DEEPEST`. An owner is the birth of the request block that made the
/// routine, and a routine's own birth the index of the entry that made it.
#[derive(Drop)]
pub struct EstaeChain {
    list: Vec<Routine>,
}

impl Model for EstaeChain {
    ghost use Rattle.std.specs.Prelude.{◌≤◌, List, length, reverse, vec_capacity};
    ghost use Rattle.rtm_model.specs.declared.reg.Reg.{Reg};
    ghost use Rattle.rtm_model.specs.Limits.{most_estaes};

    ghost Value = { List Reg };

    ghost view = { λ a. reverse a.list.items };

    ghost invariant = { λ a. (length a.list.items ≤ most_estaes)
        × (most_estaes ≤ vec_capacity a.list) };
}

fn drop_depth(list: &mut Vec<Routine>, depth: u8)
    ensures items { list.new.items ≡ filter (λ reg. not (is_of_depth depth reg)) list.old.items }
    ensures shorter { length list.new.items ≤ length list.old.items }
    ensures capacity { vec_capacity list.new ≡ vec_capacity list.old }
{
    list.retain(|routine| !routine.is_of_depth(depth));
}

fn drop_owner(list: &mut Vec<Routine>, owner: u32)
    ensures items { list.new.items ≡ filter (λ reg. not (is_of_owner owner reg)) list.old.items }
    ensures shorter { length list.new.items ≤ length list.old.items }
    ensures capacity { vec_capacity list.new ≡ vec_capacity list.old }
{
    list.retain(|routine| !routine.is_of_owner(owner));
}

fn drop_newer_owners(list: &mut Vec<Routine>, born: u32)
    ensures items { list.new.items ≡ filter (λ reg. nat_le reg.owner born) list.old.items }
    ensures shorter { length list.new.items ≤ length list.old.items }
    ensures capacity { vec_capacity list.new ≡ vec_capacity list.old }
{
    list.retain(|routine| routine.is_of_older_owner(born));
}

fn drop_at_xctl(list: &mut Vec<Routine>, owner: u32)
    ensures items { list.new.items
        ≡ filter (λ reg. not (is_of_owner owner reg) || reg.xctl) list.old.items }
    ensures shorter { length list.new.items ≤ length list.old.items }
    ensures capacity { vec_capacity list.new ≡ vec_capacity list.old }
{
    list.retain(|routine| routine.outlives_xctl(owner));
}

fn drop_born(list: &mut Vec<Routine>, born: u32)
    ensures items { list.new.items ≡ filter (λ reg. not (reg.born == born)) list.old.items }
    ensures shorter { length list.new.items ≤ length list.old.items }
    ensures capacity { vec_capacity list.new ≡ vec_capacity list.old }
{
    list.retain(|routine| !routine.is_born_at(born));
}

// Where the newest routine of the bracket stands, if that request block made it.
fn owned_index(list: &[Routine], depth: u8, owner: u32) -> Option<usize>
    ensures there { IfSome result (IsNewestOwned depth owner list.now) }
    ensures absent { IfNone result (newest_owned depth owner (reverse list.now) ≡ None) }
{
    let index = routine::newest_index(list, depth)?;
    if list[index].is_of_owner(owner) {
        Some(index)
    } else {
        None
    }
}

impl EstaeChain {
    /// A chain with no routine, and room for as many as may be.
    pub fn with_room(alloc: Global) -> Result<EstaeChain, NoMemory>
        ensures { IfOk result (λ chain. chain ≡ []) }
    {
        Ok(EstaeChain {
            list: Vec::with_capacity(alloc, MOST_ESTAES)?,
        })
    }

    /// Whether there are as many routines as there may be, so that ESTAEX CT is the error EE2 (this profile).
    pub fn is_full(&self) -> bool
        ensures { result ≡ (length self.now == most_estaes) }
    {
        self.list.len() == MOST_ESTAES
    }

    /// ESTAEX CT: one more routine, the newest. `Full` where as many are there as may be.
    pub fn create(&mut self, reg: Reg) -> Result<(), Full>
        ensures full { IsErr result ↔ (length self.old ≡ most_estaes) }
        ensures ok { OnOk result (self.new ≡ reg ∷ self.old) }
        ensures err { OnErr result (self.new ≡ self.old) }
    {
        if self.list.len() == MOST_ESTAES {
            return Err(Full);
        }
        self.list.push_reserved(Routine { reg });
        Ok(())
    }

    /// The routine that ESTAEX OV and ESTAEX 0 speak of: the newest of the bracket of that depth, if that request
    /// block made it.
    pub fn newest_owned(&self, depth: u8, owner: u32) -> Option<Reg>
        ensures { result ≡ newest_owned depth owner self.now }
    {
        routine::if_of_owner(owner, routine::newest_of(&self.list, depth))
    }

    /// ESTAEX OV: puts a new routine in the place of the newest one of the bracket of that depth, and gives the old
    /// one. `NotOwned` where the bracket has none, or another request block made it.
    pub fn overlay(&mut self, depth: u8, owner: u32, reg: Reg) -> Result<Reg, NotOwned>
        ensures which { result ≡ ok_or (newest_owned depth owner self.old) not_owned }
        ensures list { self.new ≡ after_overlay depth owner reg self.old }
        ensures err { OnErr result (self.new ≡ self.old) }
    {
        match owned_index(&self.list, depth, owner) {
            Some(index) => Ok(routine::replace_at(&mut self.list, index, reg)),
            None => Err(NotOwned),
        }
    }

    /// ESTAEX 0: takes the newest routine of the bracket of that depth away. `NotOwned` where the bracket has none, or
    /// another request block made it.
    pub fn cancel(&mut self, depth: u8, owner: u32) -> Result<Reg, NotOwned>
        ensures which { result ≡ ok_or (newest_owned depth owner self.old) not_owned }
        ensures list { self.new ≡ after_cancel depth owner self.old }
        ensures err { OnErr result (self.new ≡ self.old) }
    {
        match owned_index(&self.list, depth, owner) {
            Some(index) => Ok(self.list.remove(index).reg),
            None => Err(NotOwned),
        }
    }

    /// A request block is gone, and with it the routines that it made, of whatever depth.
    #[tactic(auto, using(crate::proofs::Backwards::reverse_filter))]
    pub fn drop_owner(&mut self, owner: u32)
        ensures { self.new ≡ without_owner owner self.old }
    {
        drop_owner(&mut self.list, owner);
    }

    /// A retry under the request block of that birth: the routines that newer ones made go, of whatever depth.
    #[tactic(auto, using(crate::proofs::Backwards::reverse_filter))]
    pub fn drop_newer_owners(&mut self, born: u32)
        ensures { self.new ≡ without_newer_owners born self.old }
    {
        drop_newer_owners(&mut self.list, born);
    }

    /// XCTL under a request block: of the routines that it made those without XCTL=YES go.
    #[tactic(auto, using(crate::proofs::Backwards::reverse_filter))]
    pub fn over_xctl(&mut self, owner: u32)
        ensures { self.new ≡ after_xctl owner self.old }
    {
        drop_at_xctl(&mut self.list, owner);
    }

    /// A bracket is gone, and the routines that were made in it.
    #[tactic(auto, using(crate::proofs::Backwards::reverse_filter))]
    pub fn drop_depth(&mut self, depth: u8)
        ensures { self.new ≡ without_depth depth self.old }
    {
        drop_depth(&mut self.list, depth);
    }

    /// The routine that gets control next: the newest of the bracket of that depth, of those with TERM=YES alone where
    /// `term_only`.
    pub fn next(&self, depth: u8, term_only: bool) -> Option<Reg>
        ensures { result ≡ next_estae depth term_only self.now }
    {
        routine::reg_of(routine::next_estae(&self.list, depth, term_only))
    }

    /// The routine that was born at that entry.
    pub fn routine_born_at(&self, born: u32) -> Option<Reg>
        ensures { result ≡ routine_born_at born self.now }
    {
        routine::reg_of(routine::newest_born_at(&self.list, born))
    }

    /// Takes the routine away that was born at that entry, if it is there.
    #[tactic(auto, using(crate::proofs::Backwards::reverse_filter))]
    pub fn remove(&mut self, born: u32)
        ensures { self.new ≡ without_born born self.old }
    {
        drop_born(&mut self.list, born);
    }

    /// The unit has begun to end, or is purged: all its routines go.
    pub fn clear(&mut self)
        ensures { self.new ≡ [] }
    {
        self.list.clear();
    }
}
