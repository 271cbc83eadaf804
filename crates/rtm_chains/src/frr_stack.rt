//! The functional recovery routines of a unit.

ghost use Rattle.std.specs.Prelude.{◌≡◌, ◌≤◌, ◌==◌, ◌↔◌, not, [], ◌∷◌, length, filter, IsErr, OnOk, OnErr};
ghost use Rattle.std.specs.Option.{ok_or};
ghost use Rattle.rtm_model.specs.OwnChange.{routine_born_at};
ghost use Rattle.rtm_model.specs.Chains.{is_of_depth, newest_of, without_first, with_in_place, without_born, without_depth};
ghost use Rattle.rtm_model.specs.Limits.{most_frrs};
ghost use Rattle.rtm_chains.specs.Refused.{empty};

use crate::refused::Empty;
use crate::routine::{self, Routine};
use arrayvec::ArrayVec;
use rtm_model::{Full, MOST_FRRS, Reg};
use std::marker::Model;

/// The functional recovery routines of a unit (Authorized Assembler Services Guide, "Providing recovery"), at most
/// `MOST_FRRS`.
///
/// A contract sees the stack as the list of its routines, newest first. A depth is 0 for the outermost bracket of the
/// unit and one more for each inner one, at most `DEEPEST`. A birth is the index of the entry that made the routine.
#[derive(Drop)]
pub struct FrrStack {
    list: ArrayVec<Routine, MOST_FRRS>,
}

impl Model for FrrStack {
    ghost use Rattle.std.specs.Prelude.{◌≤◌, List, length, reverse};
    ghost use Rattle.rtm_model.specs.declared.reg.Reg.{Reg};
    ghost use Rattle.rtm_model.specs.Limits.{most_frrs};

    ghost Value = { List Reg };

    ghost view = { λ a. reverse a.list.items };

    ghost invariant = { λ a. length a.list.items ≤ most_frrs };
}

fn drop_depth(list: &mut ArrayVec<Routine, MOST_FRRS>, depth: u8)
    ensures items { list.new.items ≡ filter (λ reg. not (is_of_depth depth reg)) list.old.items }
    ensures shorter { length list.new.items ≤ length list.old.items }
{
    list.retain(|routine| !routine.is_of_depth(depth));
}

fn drop_born(list: &mut ArrayVec<Routine, MOST_FRRS>, born: u32)
    ensures items { list.new.items ≡ filter (λ reg. not (reg.born == born)) list.old.items }
    ensures shorter { length list.new.items ≤ length list.old.items }
{
    list.retain(|routine| !routine.is_born_at(born));
}

impl FrrStack {
    /// A stack with no routine.
    pub fn new() -> FrrStack
        ensures { result ≡ [] }
    {
        FrrStack {
            list: ArrayVec::new(),
        }
    }

    /// Whether some FRR is there, of whatever depth.
    pub fn any(&self) -> bool
        ensures { result ≡ not (length self.now == 0) }
    {
        !self.list.is_empty()
    }

    /// Whether there are as many FRRs as there may be, so that SETFRR A is the error 07D (this profile).
    pub fn is_full(&self) -> bool
        ensures { result ≡ (length self.now == most_frrs) }
    {
        self.list.is_full()
    }

    /// SETFRR A: one more FRR, the newest. `Full` where as many are there as may be.
    pub fn add(&mut self, reg: Reg) -> Result<(), Full>
        ensures full { IsErr result ↔ (length self.old ≡ most_frrs) }
        ensures ok { OnOk result (self.new ≡ reg ∷ self.old) }
        ensures err { OnErr result (self.new ≡ self.old) }
    {
        if self.list.is_full() {
            return Err(Full);
        }
        self.list.push(Routine { reg });
        Ok(())
    }

    /// SETFRR D: takes the newest FRR of the bracket of that depth away. `Empty` where it has none.
    pub fn delete(&mut self, depth: u8) -> Result<Reg, Empty>
        ensures which { result ≡ ok_or (newest_of depth self.old) empty }
        ensures list { self.new ≡ without_first (is_of_depth depth) self.old }
        ensures err { OnErr result (self.new ≡ self.old) }
    {
        match routine::newest_index(self.list.as_slice(), depth) {
            Some(index) => Ok(self.list.remove(index).reg),
            None => Err(Empty),
        }
    }

    /// SETFRR R: puts a new FRR in the place of the newest one of the bracket of that depth, and gives the old one.
    /// `Empty` where it has none.
    pub fn replace(&mut self, depth: u8, reg: Reg) -> Result<Reg, Empty>
        ensures which { result ≡ ok_or (newest_of depth self.old) empty }
        ensures list { self.new ≡ with_in_place (is_of_depth depth) reg self.old }
        ensures err { OnErr result (self.new ≡ self.old) }
    {
        match routine::newest_index(self.list.as_slice(), depth) {
            Some(index) => Ok(routine::replace_at(self.list.as_mut_slice(), index, reg)),
            None => Err(Empty),
        }
    }

    /// SETFRR P, and the end of a bracket: all FRRs of the bracket of that depth go.
    #[tactic(auto, using(crate::proofs::Backwards::reverse_filter))]
    pub fn purge(&mut self, depth: u8)
        ensures { self.new ≡ without_depth depth self.old }
    {
        drop_depth(&mut self.list, depth);
    }

    /// The FRR that gets control next: the newest of the bracket of that depth.
    pub fn next(&self, depth: u8) -> Option<Reg>
        ensures { result ≡ newest_of depth self.now }
    {
        routine::reg_of(routine::newest_of(self.list.as_slice(), depth))
    }

    /// The FRR that was born at that entry.
    pub fn routine_born_at(&self, born: u32) -> Option<Reg>
        ensures { result ≡ routine_born_at born self.now }
    {
        routine::reg_of(routine::newest_born_at(self.list.as_slice(), born))
    }

    /// Takes the FRR away that was born at that entry, if it is there.
    #[tactic(auto, using(crate::proofs::Backwards::reverse_filter))]
    pub fn remove(&mut self, born: u32)
        ensures { self.new ≡ without_born born self.old }
    {
        drop_born(&mut self.list, born);
    }

    /// The unit has begun to end, or is purged: all its FRRs go.
    pub fn clear(&mut self)
        ensures { self.new ≡ [] }
    {
        self.list.clear();
    }
}
