//! The ESTAI routines of a unit.

ghost use Rattle.std.specs.Prelude.{◌≡◌, ◌≤◌, ◌==◌, not, [], length, filter, vec_capacity, IfOk};
ghost use Rattle.rtm_model.specs.OwnChange.{routine_born_at};
ghost use Rattle.rtm_model.specs.Chains.{next_estai, inherited_estais, without_born};
ghost use Rattle.rtm_model.specs.Limits.{most_estais};

use crate::routine::{self, Routine};
use rtm_codes::NoMemory;
use rtm_model::{MOST_ESTAIS, Reg};
use std::alloc::Global;
use std::marker::Model;

/// The ESTAI routines of a task (Assembler Services Reference, ATTACHX), at most `MOST_ESTAIS`.
///
/// A contract sees the list as its routines, that of the nearest attacher first. A routine's birth is the index of the
/// entry whose ATTACHX named it, and those who inherit it have it under the same birth.
#[derive(Drop)]
pub struct EstaiList {
    list: Vec<Routine>,
}

impl Model for EstaiList {
    ghost use Rattle.std.specs.Prelude.{◌≤◌, List, vec_capacity};
    ghost use Rattle.rtm_model.specs.declared.reg.Reg.{Reg};
    ghost use Rattle.rtm_model.specs.Limits.{most_estais};

    ghost Value = { List Reg };

    ghost view = { λ a. a.list.items };

    ghost invariant = { λ a. most_estais ≤ vec_capacity a.list };
}

fn drop_born(list: &mut Vec<Routine>, born: u32)
    ensures items { list.new.items ≡ filter (λ reg. not (reg.born == born)) list.old.items }
    ensures capacity { vec_capacity list.new ≡ vec_capacity list.old }
{
    list.retain(|routine| !routine.is_born_at(born));
}

impl EstaiList {
    /// A list with no routine, and room for as many as may be.
    pub fn with_room(alloc: Global) -> Result<EstaiList, NoMemory>
        ensures { IfOk result (λ list. list ≡ []) }
    {
        Ok(EstaiList {
            list: Vec::with_capacity(alloc, MOST_ESTAIS)?,
        })
    }

    /// The routines of a task at its birth, in a list that has none yet: its own first, if its ATTACHX names one, and
    /// then those of its mother, which keeps them.
    pub fn inherit(&mut self, mother: &EstaiList, own: Option<Reg>)
        requires empty { self.old ≡ [] }
        requires room { length (inherited_estais own mother.now) ≤ most_estais }
        ensures { self.new ≡ inherited_estais own mother.now }
    {
        if let Some(reg) = own {
            self.list.push_reserved(Routine { reg });
        }
        if self.list.extend_from_slice(&mother.list).is_err() {
            unreachable!("there is room for all");
        }
    }

    /// The routine that gets control next: the first, of those with TERM=YES alone where `term_only`.
    pub fn next(&self, term_only: bool) -> Option<Reg>
        ensures { result ≡ next_estai term_only self.now }
    {
        routine::reg_of(routine::next_estai(&self.list, term_only))
    }

    /// The routine that was born at that entry.
    pub fn routine_born_at(&self, born: u32) -> Option<Reg>
        ensures { result ≡ routine_born_at born self.now }
    {
        routine::reg_of(routine::first_born_at(&self.list, born))
    }

    /// Takes the routine away that was born at that entry, if it is there.
    pub fn left(&mut self, born: u32)
        ensures { self.new ≡ without_born born self.old }
    {
        drop_born(&mut self.list, born);
    }

    /// A routine has asked for a stop, or the task has begun to end: all its routines go.
    pub fn stop(&mut self)
        ensures { self.new ≡ [] }
    {
        self.list.clear();
    }
}
