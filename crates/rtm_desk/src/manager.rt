//! Who is told of releases.

ghost use Rattle.std.specs.Prelude.{◌≡◌, ◌++◌, ◌∷◌, ◌+◌, ◌<◌, ◌≤◌, [], List, OnOk, length, ℕ};
ghost use Rattle.rtm_deck_operands.specs.declared.value.Res.{Res};

use rtm_codes::NoMemory;

/// A resource manager: it is told of each release of a resource of its class. These promises are this profile's own.
pub trait Manager: Drop {
    /// The class of the resources of whose release it is told.
    ghost class: { Self → Res };

    /// What it was told: for each release, oldest first, the number of the unit that held the resource, and the
    /// resource's number.
    ghost released: { Self → List (ℕ × ℕ) };

    /// Of how many releases it can be told yet, at least, without being refused memory.
    ghost spare: { Self → ℕ };

    /// Takes memory for `n` more releases, from 0 to the greatest number of 64 bits. Refused or not, what it had it
    /// keeps, and it may have room for more.
    fn reserve(&mut self, n: u64) -> Result<(), NoMemory>
        ensures room { OnOk result (n ≤ spare self.new) }
        ensures spare { spare self.old ≤ spare self.new }
        ensures released { released self.new ≡ released self.old }
        ensures class { class self.new ≡ class self.old };

    /// Tells it of a release: the number of the unit that held the resource, the master's too, and the resource's
    /// number, of 32 bits. It takes no memory, and uses up room for one release at most.
    fn release(&mut self, unit: u16, id: u32)
        requires room { 0 < spare self.old }
        ensures released { released self.new ≡ released self.old ++ (unit, id) ∷ [] }
        ensures spare { spare self.old ≤ spare self.new + 1 }
        ensures class { class self.new ≡ class self.old };

    /// How many releases it was told of.
    fn count(&self) -> u64
        ensures { result ≡ length (released self.now) };
}

impl Manager for Box<dyn Manager + Send> {
    ghost class = { λ b. (Manager-box b).class b.value };

    ghost released = { λ b. (Manager-box b).released b.value };

    ghost spare = { λ b. (Manager-box b).spare b.value };

    fn reserve(&mut self, n: u64) -> Result<(), NoMemory> {
        (**self).reserve(n)
    }

    fn release(&mut self, unit: u16, id: u32) {
        (**self).release(unit, id);
    }

    fn count(&self) -> u64 {
        (**self).count()
    }
}
