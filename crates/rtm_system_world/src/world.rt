//! What lives after a history.

ghost use Rattle.std.specs.Prelude.{◌≡◌, ◌+◌, ◌||◌, IfOk, is_some, replicate};
ghost use Rattle.rtm_model.specs.World.{Core, core_at, start, unborn_unit};
ghost use Rattle.rtm_model.specs.Tasks.{Tree, has_ended, life_of};

use crate::units;
use rtm_codes::{Code, NoMemory};
use rtm_deck_items::Deck;
use rtm_ending::{Holds, Managers};
use rtm_system_unit::UnitOfWork;
use rtm_tasks::TaskTree;
use std::alloc::Global;
use std::marker::Model;

/// The units by number, the master's last; who lives and which events are posted; what is held; the resource managers;
/// the end code of memory end, once it has begun; and whether the address space has ended.
#[derive(Drop)]
pub struct World {
    pub(crate) units: Vec<UnitOfWork>,
    pub(crate) tree: TaskTree,
    pub(crate) holdings: Holds,
    pub(crate) managers: Managers,
    pub(crate) memory_end: Option<Code>,
    pub(crate) over: bool,
}

impl Model for World {
    ghost use Rattle.std.specs.Prelude.{◌≡◌, ◌+◌, length};
    ghost use Rattle.rtm_ending.specs.View.{HoldsView};
    ghost use Rattle.rtm_model.specs.World.{World};

    ghost Value = { World };

    ghost view = { λ a. record {
      units = a.units.items;
      tree = a.tree;
      holdings = HoldsView.owners a.holdings;
      managers = a.managers;
      memory_end = a.memory_end;
      over = a.over;
    } };

    // The holdings know of as many units as they have lists, but for the master's.
    ghost invariant = { λ a. length (HoldsView.owners a.holdings)
        ≡ HoldsView.units a.holdings + 1 };
}

impl World {
    /// What lives before the first entry of the deck, with all the memory that its run takes.
    #[tactic(auto, using(crate::proofs::Starting::units_unborn))]
    pub fn new(alloc: Global, deck: &Deck) -> Result<World, NoMemory>
        ensures { IfOk result (λ world. world ≡ start deck.now) }
    {
        let job = deck.job_step();
        let mut units = units_at_start(alloc, deck.unit_count())?;
        deck.keeps_its_form();
        units::be_born_at(&mut units, job, 0, deck.program_of(job));
        Ok(World {
            units,
            tree: TaskTree::new(alloc, deck)?,
            holdings: Holds::with_room(alloc, deck)?,
            managers: Managers::with_room(alloc)?,
            memory_end: None,
            over: false,
        })
    }
}

impl World {
    /// Whether the target of a command has begun to end, has ended or was purged, or memory end has begun.
    pub fn is_gone(&self, target: u16) -> bool
        ensures { result
            ≡ (has_ended (life_of target (Tree.lives self.now.tree))
            || is_some (Core.begun (core_at target self.now)) || is_some self.now.memory_end) }
    {
        self.tree.ended(target) || self.has_begun(target) || self.memory_end.is_some()
    }

    /// Whether the address space has ended.
    pub fn is_over(&self) -> bool
        ensures { result ≡ self.now.over }
    {
        self.over
    }
}

// The units before the birth of any, and the master.
fn units_at_start(alloc: Global, count: u16) -> Result<Vec<UnitOfWork>, NoMemory>
    ensures { IfOk result (λ units. units.items ≡ replicate (count + 1) unborn_unit) }
{
    let mut units = Vec::with_capacity(alloc, count as usize + 1)?;
    for _made in 0..count as usize + 1 {
        units.push_reserved(UnitOfWork::with_room(alloc)?);
    }
    Ok(units)
}
