//! A manager for each class.

ghost use Rattle.std.specs.Prelude.{◌≡◌, ◌+◌, ◌<◌, OnOk, map, take, vec_len, ℕ};
ghost use Rattle.rtm_desk.specs.Told.{AllHaveRoom, HasRoom, classes, place_of, tell, told_to};

use crate::Manager;
use rtm_codes::NoMemory;
use rtm_model::Res;
use std::marker::Model;

/// Four managers, one for each class, in the order of the classes: ENQ, STOR, DSN, TIMR (this profile).
#[derive(Drop)]
pub struct Desks<M: Manager> {
    managers: Vec<M>,
}

impl<M: Manager> Model for Desks<M> {
    ghost use Rattle.std.specs.Prelude.{◌≡◌, map};
    ghost use Rattle.rtm_desk.specs.Told.{DesksView, classes, told_to};

    ghost Value = { DesksView };

    ghost view = { λ a. record {
      told = told_to M.class M.released a.managers.items;
      spares = map (λ m. M.spare m) a.managers.items;
    } };

    ghost invariant = { λ a. map (λ m. M.class m) a.managers.items ≡ classes };
}

// Where the manager of the class stands.
fn place_of(class: Res) -> usize
    ensures { result ≡ place_of class }
{
    match class {
        Res::Enq => 0,
        Res::Stor => 1,
        Res::Dsn => 2,
        Res::Timr => 3,
    }
}

impl<M: Manager> Desks<M> {
    /// The desks of these managers: four, in the order of the classes. It takes no memory.
    pub fn over(managers: Vec<M>) -> Desks<M>
        requires order { map (λ m. M.class m) managers.items ≡ classes }
        ensures told { result.told ≡ told_to M.class M.released managers.items }
        ensures spares { result.spares ≡ map (λ m. M.spare m) managers.items }
    {
        Desks { managers }
    }

    /// Has each manager take memory for `n` more releases, from 0 to the greatest number of 64 bits. Where one
    /// refuses, the ones before it have theirs, and those behind it aren't asked.
    pub fn reserve_all(&mut self, n: u64) -> Result<(), NoMemory>
        ensures room { OnOk result (HasRoom n self.new) }
        ensures kept { (least : ℕ) → HasRoom least self.old → HasRoom least self.new }
        ensures told { self.new.told ≡ self.old.told }
    {
        reserve_each::<M>(&mut self.managers, n)
    }

    /// Tells the manager of the class, and no other, of a release: the number of the unit that held the resource, the
    /// master's too, and the resource's number.
    pub fn release(&mut self, class: Res, unit: u16, id: u32)
        requires room { HasRoom 1 self.old }
        ensures told { self.new.told ≡ tell class (unit, id) self.old.told }
        ensures room { (least : ℕ) → HasRoom (least + 1) self.old → HasRoom least self.new }
    {
        release_to::<M>(&mut self.managers, class, unit, id);
    }

    /// The managers, in the order of the classes. It takes no memory.
    pub fn into_managers(self) -> Vec<M>
        ensures told { told_to M.class M.released result.items ≡ self.told }
        ensures spares { map (λ m. M.spare m) result.items ≡ self.spares }
    {
        self.managers
    }
}

// Has the manager at that place take memory.
fn reserve_at<M: Manager>(managers: &mut Vec<M>, place: usize, n: u64) -> Result<(), NoMemory>
    requires { place < vec_len managers.old }
    ensures count { vec_len managers.new ≡ vec_len managers.old }
    ensures class { map (λ m. M.class m) managers.new.items
        ≡ map (λ m. M.class m) managers.old.items }
    ensures told { told_to M.class M.released managers.new.items
        ≡ told_to M.class M.released managers.old.items }
    ensures kept { (least : ℕ) → AllHaveRoom least (map (λ m. M.spare m) managers.old.items)
        → AllHaveRoom least (map (λ m. M.spare m) managers.new.items) }
    ensures room { OnOk result (
        AllHaveRoom n (take place (map (λ m. M.spare m) managers.old.items)) → AllHaveRoom n
        (take (place + 1) (map (λ m. M.spare m) managers.new.items))) }
{
    managers[place].reserve(n)
}

// Has each take memory, from the first on, until one refuses.
fn reserve_each<M: Manager>(managers: &mut Vec<M>, n: u64) -> Result<(), NoMemory>
    ensures class { map (λ m. M.class m) managers.new.items
        ≡ map (λ m. M.class m) managers.old.items }
    ensures told { told_to M.class M.released managers.new.items
        ≡ told_to M.class M.released managers.old.items }
    ensures kept { (least : ℕ) → AllHaveRoom least (map (λ m. M.spare m) managers.old.items)
        → AllHaveRoom least (map (λ m. M.spare m) managers.new.items) }
    ensures room { OnOk result (AllHaveRoom n (map (λ m. M.spare m) managers.new.items)) }
{
    'places: for place in 0..managers.len() {
        match reserve_at::<M>(managers, place, n) {
            Ok(()) => {}
            Err(NoMemory) => return Err(NoMemory),
        }
    }
    Ok(())
}

// Tells the manager of the class.
fn release_to<M: Manager>(managers: &mut Vec<M>, class: Res, unit: u16, id: u32)
    requires order { map (λ m. M.class m) managers.old.items ≡ classes }
    requires room { AllHaveRoom 1 (map (λ m. M.spare m) managers.old.items) }
    ensures class { map (λ m. M.class m) managers.new.items ≡ classes }
    ensures told { told_to M.class M.released managers.new.items
        ≡ tell class (unit, id) (told_to M.class M.released managers.old.items) }
    ensures room { (least : ℕ) → AllHaveRoom (least + 1) (map (λ m. M.spare m) managers.old.items)
        → AllHaveRoom least (map (λ m. M.spare m) managers.new.items) }
{
    managers[place_of(class)].release(unit, id);
}
