//! What only a unit's own birth, entries and purge change.

ghost use Rattle.std.specs.Prelude.{◌≡◌, ◌<◌, [], IfOk, unwrap_or};
ghost use Rattle.std.specs.Option.{option_copied};
ghost use Rattle.rtm_model.specs.World.{UnitOfWork, unborn_unit};
ghost use Rattle.rtm_deck_items.specs.declared.op.Op.TheVariants.{Return};
ghost use Rattle.rtm_model.specs.Surroundings.{op_here};
ghost use Rattle.rtm_model.specs.OwnChange.{after_begin};
ghost use Rattle.rtm_model.specs.Advance.{purged_core};

use crate::here;
use rtm_blocks::Blocks;
use rtm_chains::{EstaeChain, EstaiList, FrrStack};
use rtm_codes::{Code, NoMemory};
use rtm_deck_items::{Deck, Op};
use rtm_percolate::Levels;
use rtm_sdwa::Sdwa;
use std::alloc::Global;
use std::marker::Model;

/// How a unit has begun to end.
#[derive(Clone, Copy)]
pub(crate) struct Beginning {
    pub(crate) code: Code,
    /// The record of the error that led to it, if an error did.
    pub(crate) cause: Option<Sdwa>,
}

impl Model for Beginning {
    ghost use Rattle.rtm_model.specs.World.{Beginning};

    ghost Value = { Beginning };

    ghost view = { λ a. record { code = a.code; cause = a.cause } };

    ghost inverse = { λ b. record { code = b.code; cause = b.cause } };
}

/// The control blocks of a unit, over room that is reserved.
#[derive(Drop)]
pub(crate) struct Core {
    pub(crate) blocks: Blocks,
    pub(crate) levels: Levels,
    pub(crate) frrs: FrrStack,
    pub(crate) estaes: EstaeChain,
    pub(crate) estais: EstaiList,
    /// An abort without retry has landed.
    pub(crate) doomed: bool,
    pub(crate) begun: Option<Beginning>,
}

impl Model for Core {
    ghost use Rattle.rtm_model.specs.World.{Core};

    ghost Value = { Core };

    ghost view = { λ a. record {
      blocks = a.blocks;
      levels = a.levels;
      frrs = a.frrs;
      estaes = a.estaes;
      estais = a.estais;
      doomed = a.doomed;
      begun = a.begun;
    } };
}

impl Core {
    pub(crate) fn with_room(alloc: Global) -> Result<Core, NoMemory>
        ensures { IfOk result (λ core. core ≡ UnitOfWork.core unborn_unit) }
    {
        let blocks = Blocks::with_room(alloc)?;
        let levels = Levels::with_room(alloc)?;
        let estaes = EstaeChain::with_room(alloc)?;
        let estais = EstaiList::with_room(alloc)?;
        Ok(Core {
            blocks,
            levels,
            frrs: FrrStack::new(),
            estaes,
            estais,
            doomed: false,
            begun: None,
        })
    }

    /// The card at which the unit stands, in the deck itself; none behind the last card, where a program returns.
    /// Where the unit has no request block it is the first card of the first program, which no entry asks for.
    #[inline(always)]
    pub(crate) fn card_here<'d>(&self, deck: &'d Deck) -> Option<&'d Op>
        ensures { unwrap_or (option_copied result) Return ≡ op_here deck.now self.now }
    {
        here::card_at(deck, self.blocks.place())
    }

    /// The unit is purged: its control blocks go.
    pub(crate) fn purge(&mut self)
        ensures { self.new ≡ purged_core self.old }
    {
        self.blocks.clear();
        self.levels.clear();
        self.frrs.clear();
        self.estaes.clear();
        self.estais.stop();
    }

    /// The unit begins to end, by the error that is open, if one is: its control blocks go.
    pub(crate) fn begin_to_end(&mut self, code: Code)
        ensures { self.new ≡ after_begin code self.old }
    {
        let cause = self.levels.error();
        self.purge();
        self.begun = Some(Beginning { code, cause });
    }
}
