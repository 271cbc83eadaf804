//! The holdings of one owner, by class.

ghost use Rattle.std.specs.Prelude.{◌≡◌, ◌<◌, ◌≤◌, ◌==◌, ◌∷◌, length, find, IfOk, IfNone};
ghost use Rattle.rtm_model.specs.Chains.{without_first};
ghost use Rattle.rtm_model.specs.Ending.{no_holdings, of_class, on_class, held_count, is_of_id, first_by_class, newest_held, owner_after_release};
ghost use Rattle.rtm_model.specs.Limits.{most_holdings};
ghost use Rattle.rtm_ending.specs.View.{births_of};

use crate::class_list::ClassList;
use rtm_codes::NoMemory;
use rtm_model::{Holding, Res};
use std::alloc::Global;
use std::marker::Model;

/// What an owner holds, at most `MOST_HOLDINGS` in all: a list for each class.
#[derive(Drop)]
pub(crate) struct OwnerLists {
    enq: ClassList,
    stor: ClassList,
    dsn: ClassList,
    timr: ClassList,
}

impl Model for OwnerLists {
    ghost use Rattle.std.specs.Prelude.{◌+◌, ◌≤◌, length};
    ghost use Rattle.rtm_model.specs.Ending.{Holdings};
    ghost use Rattle.rtm_model.specs.Limits.{most_holdings};

    ghost Value = { Holdings };

    ghost view = { λ a. record { enq = a.enq; stor = a.stor; dsn = a.dsn; timr = a.timr } };

    ghost invariant = { λ a.
        length a.enq + length a.stor + length a.dsn + length a.timr ≤ most_holdings };
}

impl OwnerLists {
    /// No holding, and room for all that an owner may hold.
    pub(crate) fn with_room(alloc: Global) -> Result<OwnerLists, NoMemory>
        ensures { IfOk result (λ lists. lists ≡ no_holdings) }
    {
        Ok(OwnerLists {
            enq: ClassList::with_room(alloc)?,
            stor: ClassList::with_room(alloc)?,
            dsn: ClassList::with_room(alloc)?,
            timr: ClassList::with_room(alloc)?,
        })
    }

    /// How many holdings there are, of all classes.
    pub(crate) fn count(&self) -> usize
        ensures value { result ≡ held_count self.now }
        ensures most { result ≤ most_holdings }
    {
        self.enq.len() + self.stor.len() + self.dsn.len() + self.timr.len()
    }

    fn list(&self, class: Res) -> &ClassList
        ensures { result.now ≡ of_class class self.now }
    {
        match class {
            Res::Enq => &self.enq,
            Res::Stor => &self.stor,
            Res::Dsn => &self.dsn,
            Res::Timr => &self.timr,
        }
    }

    /// The newest holding of the class.
    pub(crate) fn newest(&self, class: Res) -> Option<Holding>
        ensures { result ≡ newest_held class self.now }
    {
        self.list(class).newest()
    }

    /// The newest holding of that class and number.
    pub(crate) fn find(&self, class: Res, id: u32) -> Option<Holding>
        ensures { result ≡ find (is_of_id id) (of_class class self.now) }
    {
        self.list(class).find(id)
    }

    /// The first holding by class, then the newest.
    pub(crate) fn next(&self) -> Option<Holding>
        ensures { result ≡ first_by_class (λ class. newest_held class self.now) }
    {
        self.enq
            .newest()
            .or(self.stor.newest())
            .or(self.dsn.newest())
            .or(self.timr.newest())
    }

    /// One more holding, the newest of its class.
    pub(crate) fn put(&mut self, holding: Holding)
        requires room { held_count self.old < most_holdings }
        ensures { self.new ≡ on_class holding.class (λ held. holding ∷ held) self.old }
    {
        match holding.class {
            Res::Enq => self.enq.put(holding),
            Res::Stor => self.stor.put(holding),
            Res::Dsn => self.dsn.put(holding),
            Res::Timr => self.timr.put(holding),
        }
    }

    /// Takes the newest holding of that class and number away, and gives it.
    pub(crate) fn take(&mut self, class: Res, id: u32) -> Option<Holding>
        ensures which { result ≡ find (is_of_id id) (of_class class self.old) }
        ensures lists { self.new ≡ on_class class (without_first (is_of_id id)) self.old }
        ensures absent { IfNone result (self.new ≡ self.old) }
    {
        match class {
            Res::Enq => self.enq.take(id),
            Res::Stor => self.stor.take(id),
            Res::Dsn => self.dsn.take(id),
            Res::Timr => self.timr.take(id),
        }
    }

    /// Takes the holding away that was born at that entry, if it is there. No other one was born there.
    pub(crate) fn release(&mut self, born: u32)
        requires { births_of born self.old ≤ 1 }
        ensures { self.new ≡ owner_after_release born self.old }
    {
        self.enq.release(born);
        self.stor.release(born);
        self.dsn.release(born);
        self.timr.release(born);
    }
}
