//! All holdings, by owner and class.

ghost use Rattle.std.specs.Prelude.{◌≡◌, ◌+◌, ◌≤◌, ◌<◌, ◌==◌, ◌↔◌, ◌∷◌, length, find, replicate, IfOk, IfNone, IsErr, OnOk, OnErr, None};
ghost use Rattle.std.specs.Option.{ok_or, option_or};
ghost use Rattle.rtm_model.specs.Ending.{no_holdings, held_count, holdings_of, on_owner, on_class, of_class, newer_holding, newest_held, newest_of_all, next_release, newest_equal, after_get, after_free, after_release, AreHeldBefore};
ghost use Rattle.rtm_model.specs.Limits.{most_holdings};
ghost use Rattle.rtm_ending.specs.Refused.{not_held};
ghost use Rattle.rtm_ending.specs.View.{HoldsView, births_among};

use crate::owner_lists::OwnerLists;
use crate::refused::NotHeld;
use rtm_codes::NoMemory;
use rtm_deck_items::Deck;
use rtm_model::{Full, Holding, MOST_HOLDINGS, Res};
use std::alloc::Global;
use std::marker::Model;

/// What the units and the master hold, at most `MOST_HOLDINGS` each.
///
/// A contract sees the number of units, and for each unit, in order, and for the master, which comes last, its
/// holdings of each class, newest first. A holding's birth is the index of the entry that made it, and an owner is a
/// unit's number, or for the master the number of units.
#[derive(Drop)]
pub struct Holds {
    units: u16,
    owners: Vec<OwnerLists>,
}

impl Model for Holds {
    ghost use Rattle.rtm_ending.specs.View.{HoldsView, AreKept};

    ghost Value = { HoldsView };

    ghost view = { λ a. record { units = a.units; owners = a.owners.items } };

    ghost invariant = { λ a. AreKept a.units a.owners.items };
}

// So many owners that hold nothing.
fn owners_with_room(alloc: Global, count: usize) -> Result<Vec<OwnerLists>, NoMemory>
    ensures { IfOk result (λ owners. owners.items ≡ replicate count no_holdings) }
{
    let mut owners = Vec::with_capacity(alloc, count)?;
    for _made in 0..count {
        owners.push_reserved(OwnerLists::with_room(alloc)?);
    }
    Ok(owners)
}

// The newer of two holdings.
fn newer_holding(one: Option<Holding>, other: Option<Holding>) -> Option<Holding>
    ensures { result ≡ newer_holding one other }
{
    match (one, other) {
        (None, other) => other,
        (Some(one), Some(other)) if one.born < other.born => Some(other),
        (Some(one), _) => Some(one),
    }
}

// The newest holding of the class.
fn newest_of_all(owners: &[OwnerLists], class: Res) -> Option<Holding>
    ensures { result ≡ newest_of_all class owners.now }
{
    owners
        .iter()
        .map(|lists| lists.newest(class))
        .fold(None, newer_holding)
}

fn put_in(owners: &mut Vec<OwnerLists>, holding: Holding)
    requires within { holding.owner < length owners.old.items }
    requires room { held_count (holdings_of holding.owner owners.old.items) < most_holdings }
    ensures { owners.new.items ≡ after_get holding owners.old.items }
{
    owners[holding.owner as usize].put(holding);
}

fn take_from(owners: &mut Vec<OwnerLists>, owner: u16, class: Res, id: u32) -> Option<Holding>
    ensures which { result ≡ newest_equal owner class id owners.old.items }
    ensures lists { owners.new.items ≡ after_free owner class id owners.old.items }
    ensures absent { IfNone result (owners.new.items ≡ owners.old.items) }
{
    if owner as usize >= owners.len() {
        return None;
    }
    owners[owner as usize].take(class, id)
}

// Takes the holding away that was born at that entry, whoever holds it.
fn release_in(owners: &mut [OwnerLists], born: u32)
    requires { births_among born owners.old ≤ 1 }
    ensures { owners.new ≡ after_release born owners.old }
{
    for lists in owners.iter_mut() {
        lists.release(born);
    }
}

impl Holds {
    /// Nothing held, and room for all that each unit of the deck and the master may hold.
    pub fn with_room(alloc: Global, deck: &Deck) -> Result<Holds, NoMemory>
        ensures { IfOk result (λ holds. holds ≡ record {
          units = length deck.now.units;
          owners = replicate (length deck.now.units + 1) no_holdings;
        }) }
    {
        Holds::of_units(alloc, deck.unit_count())
    }

    /// The same for so many units.
    pub(crate) fn of_units(alloc: Global, units: u16) -> Result<Holds, NoMemory>
        ensures { IfOk result
            (λ holds. holds
            ≡ record { units = units; owners = replicate (units + 1) no_holdings }) }
    {
        let owners = owners_with_room(alloc, units as usize + 1)?;
        Ok(Holds { units, owners })
    }

    /// Whether the owner has as many holdings as it may have, so that its GET is the error EE4 (this profile).
    pub fn is_full(&self, owner: u16) -> bool
        ensures { result ≡ (held_count (holdings_of owner self.now.owners) == most_holdings) }
    {
        match self.owners.get(owner as usize) {
            Some(lists) => lists.count() == MOST_HOLDINGS,
            None => false,
        }
    }

    /// GET: one more holding, the newest of all. `Full` where its owner has as many as it may have.
    pub fn get(&mut self, holding: Holding) -> Result<(), Full>
        requires owner { holding.owner ≤ self.old.units }
        requires newest { AreHeldBefore holding.born self.old.owners }
        ensures full { IsErr result
            ↔ (held_count (holdings_of holding.owner self.old.owners) ≡ most_holdings) }
        ensures ok { OnOk result
            (self.new ≡ record self.old { owners = after_get holding self.old.owners }) }
        ensures err { OnErr result (self.new ≡ self.old) }
    {
        if self.owners[holding.owner as usize].count() == MOST_HOLDINGS {
            return Err(Full);
        }
        put_in(&mut self.owners, holding);
        Ok(())
    }

    /// The holding that FREE would take away: the unit's newest of that class and number.
    pub fn find(&self, unit: u16, class: Res, id: u32) -> Option<Holding>
        ensures { result ≡ newest_equal unit class id self.now.owners }
    {
        match self.owners.get(unit as usize) {
            Some(lists) => lists.find(class, id),
            None => None,
        }
    }

    /// FREE: takes the unit's newest holding of that class and number away. `NotHeld` where it has none, and where
    /// there is no such unit.
    pub fn free(&mut self, unit: u16, class: Res, id: u32) -> Result<Holding, NotHeld>
        ensures which { result ≡ ok_or (newest_equal unit class id self.old.owners) not_held }
        ensures holds { self.new
            ≡ record self.old { owners = after_free unit class id self.old.owners } }
        ensures err { OnErr result (self.new ≡ self.old) }
    {
        match take_from(&mut self.owners, unit, class, id) {
            Some(holding) => Ok(holding),
            None => Err(NotHeld),
        }
    }

    /// The holding that is released next: of that owner, or with None of all, the first by class, then the newest.
    /// There is none of an owner that isn't there.
    pub fn next_release(&self, owner: Option<u16>) -> Option<Holding>
        ensures { result ≡ next_release owner self.now.owners }
    {
        match owner {
            Some(owner) => next_of_owner(&self.owners, owner),
            None => next_of_all(&self.owners),
        }
    }

    /// Takes the holding away that was born at that entry, if it is there, whoever holds it.
    pub fn release(&mut self, born: u32)
        ensures { self.new ≡ record self.old { owners = after_release born self.old.owners } }
    {
        release_in(&mut self.owners, born);
    }
}

// The owner's first holding by class, then the newest.
fn next_of_owner(owners: &[OwnerLists], owner: u16) -> Option<Holding>
    ensures { result ≡ next_release (Some owner) owners.now }
{
    match owners.get(owner as usize) {
        Some(lists) => lists.next(),
        None => None,
    }
}

// The first holding by class, then the newest.
fn next_of_all(owners: &[OwnerLists]) -> Option<Holding>
    ensures { result ≡ next_release None owners.now }
{
    let mut next = newest_of_all(owners, Res::Enq);
    if next.is_none() {
        next = newest_of_all(owners, Res::Stor);
    }
    if next.is_none() {
        next = newest_of_all(owners, Res::Dsn);
    }
    if next.is_none() {
        next = newest_of_all(owners, Res::Timr);
    }
    next
}
