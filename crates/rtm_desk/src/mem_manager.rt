//! A manager in memory.

ghost use Rattle.std.specs.Prelude.{◌≡◌, ◌≤◌, [], OnOk, OnErr};
ghost use Rattle.rtm_desk.specs.MemManager.{manager_of};

use crate::Manager;
use rtm_codes::NoMemory;
use rtm_model::Res;
use std::alloc::Global;
use std::marker::Model;

/// A manager that keeps what it is told in memory (this profile).
#[derive(Debug, Drop)]
pub struct MemManager {
    class: Res,
    // The unit and the resource of each release, oldest first.
    released: Vec<(u16, u32)>,
}

impl Model for MemManager {
    ghost use Rattle.std.specs.Prelude.{◌-◌, vec_capacity, vec_len};
    ghost use Rattle.rtm_desk.specs.MemManager.{ManagerState};

    ghost Value = { ManagerState };

    ghost view = { λ a. record {
      class = a.class;
      released = a.released.items;
      spare = vec_capacity a.released - vec_len a.released;
    } };
}

impl MemManager {
    /// A manager of that class that was told nothing yet. It takes no memory until it is asked to reserve some.
    pub fn new(alloc: Global, class: Res) -> MemManager
        ensures { result ≡ manager_of class }
    {
        MemManager {
            class,
            released: Vec::new(alloc),
        }
    }

    /// What it was told: the number of the unit that held the resource, and the resource's number; oldest first.
    pub fn released(&self) -> &[(u16, u32)]
        ensures { result.now ≡ self.now.released }
    {
        &self.released
    }

    /// The class of the resources of whose release it is told.
    pub fn class(&self) -> Res
        ensures { result ≡ self.now.class }
    {
        self.class
    }
}

impl Manager for MemManager {
    ghost class = { λ a. a.class };

    ghost released = { λ a. a.released };

    ghost spare = { λ a. a.spare };

    /// Takes memory for `n` more releases.
    fn reserve(&mut self, n: u64) -> Result<(), NoMemory> {
        match self.released.reserve(n as usize) {
            Ok(()) => Ok(()),
            Err(_) => Err(NoMemory),
        }
    }

    fn release(&mut self, unit: u16, id: u32) {
        self.released.push_reserved((unit, id));
    }

    fn count(&self) -> u64 {
        self.released.len() as u64
    }
}
