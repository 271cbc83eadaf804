//! A unit of work: what it makes next, and what an entry changes of it.

ghost use Rattle.std.specs.Prelude.{◌≡◌, ◌+◌, ◌<◌, ◌≤◌, [], IfOk, is_some, length, unwrap_or};
ghost use Rattle.std.specs.Option.{option_copied};
ghost use Rattle.rtm_model.specs.Aborts.{fate_of, first_abort};
ghost use Rattle.rtm_model.specs.Posts.{with_posted};
ghost use Rattle.rtm_model.specs.OwnChange.{own_change, own_pending};
ghost use Rattle.rtm_model.specs.Advance.{cause_of, purged_core};
ghost use Rattle.rtm_model.specs.Chains.{inherited_estais};
ghost use Rattle.rtm_model.specs.Levels.{depth_in};
ghost use Rattle.rtm_model.specs.Limits.{most_estais, words};
ghost use Rattle.rtm_model.specs.NextEntry.{next_master, next_unit};
ghost use Rattle.rtm_deck_items.specs.declared.op.Op.TheVariants.{Return};
ghost use Rattle.rtm_model.specs.Surroundings.{op_here};
ghost use Rattle.rtm_model.specs.World.{at_birth, unborn_unit};
ghost use Rattle.rtm_model.specs.Blocks.{newest_block};
ghost use Rattle.rtm_system_unit.specs.Applying.{CanApplyTo, LandsFirst};
ghost use Rattle.rtm_system_unit.specs.Normal.{runs_normally, may_wait};

use crate::unit_core::Core;
use rtm_aborts::Pending;
use rtm_chains::EstaiList;
use rtm_codes::{Code, NoMemory};
use rtm_deck_items::{Deck, Op};
use rtm_ending::Managers;
use rtm_model::{Abort, Block, Class, Fate, Reg, Surroundings, What};
use rtm_sdwa::Sdwa;
use std::alloc::Global;
use std::marker::Model;

/// A unit of work: its own control blocks, the aborts that are pending for it, and how many of its commands have
/// arrived.
///
/// A contract sees it as the unit of the definitions. All its memory is taken when it is made.
#[derive(Drop)]
pub struct UnitOfWork {
    core: Core,
    pending: Pending,
    arrived: u8,
}

impl Model for UnitOfWork {
    ghost use Rattle.rtm_model.specs.World.{UnitOfWork};

    ghost Value = { UnitOfWork };

    ghost view = { λ a. record { core = a.core; pending = a.pending; arrived = a.arrived } };
}

// What an entry of the unit changes of its pending aborts: the first lands, or all go where the unit begins to end.
fn own_pending(pending: &mut Pending, what: &What)
    requires { LandsFirst (first_abort pending.old) what.now }
    ensures { pending.new ≡ own_pending what.now pending.old }
{
    match what {
        What::Land { .. } => {
            let _landed = pending.land();
        }
        What::Begin { .. } => pending.drop_all(),
        What::Exec { .. }
        | What::Error { .. }
        | What::Enter { .. }
        | What::Leave { .. }
        | What::Arrive { .. }
        | What::Release { .. }
        | What::Done { .. }
        | What::Purge { .. }
        | What::MemEnd => {}
    }
}

impl UnitOfWork {
    /// A unit before its birth, with room for all that it may have.
    pub fn with_room(alloc: Global) -> Result<UnitOfWork, NoMemory>
        ensures { IfOk result (λ unit. unit ≡ unborn_unit) }
    {
        let core = Core::with_room(alloc)?;
        Ok(UnitOfWork {
            core,
            pending: Pending::new(),
            arrived: 0,
        })
    }

    /// The card at which the unit stands, in the deck itself; none behind the last card, where a program returns
    /// (this profile). Where the unit has no request block it is the first card of the first program, which no entry
    /// asks for.
    #[inline(always)]
    pub fn card_here<'d>(&self, deck: &'d Deck) -> Option<&'d Op>
        ensures { unwrap_or (option_copied result) Return ≡ op_here deck.now self.now.core }
    {
        self.core.card_here(deck)
    }

    /// Whether the unit goes on with its card: no error is open in its innermost bracket, it hasn't begun to end, and
    /// no abort is pending.
    #[inline(always)]
    pub fn runs_normally(&self) -> bool
        ensures { result ≡ runs_normally self.now }
    {
        !self.core.levels.error_here()
            && self.core.begun.is_none()
            && self.pending.first().is_none()
    }

    /// Whether WAIT and WAITT are no error of mode in it, if it is a task.
    #[inline(always)]
    pub fn may_wait(&self) -> bool
        ensures { result ≡ may_wait self.now.core }
    {
        !self.core.frrs.any() && !self.core.levels.in_manager()
    }

    /// The request block that runs, if the unit has one.
    #[inline(always)]
    pub fn newest_block(&self) -> Option<Block>
        ensures { result ≡ newest_block self.now.core.blocks }
    {
        self.core.blocks.newest_block()
    }

    /// The entry that the unit makes next, while it lives and memory end has not begun.
    #[inline(always)]
    pub fn next(&self, deck: &Deck, surroundings: &Surroundings) -> Option<What>
        ensures { result ≡ next_unit deck.now self.now.core surroundings.now }
    {
        self.core.next(deck, surroundings)
    }

    /// The master's next entry at memory end, which has that code; `living` is the first unit that lives.
    pub fn next_at_memory_end(
        &self,
        deck: &Deck,
        surroundings: &Surroundings,
        code: Code,
        living: Option<u16>,
    ) -> Option<What>
        ensures { result ≡ next_master deck.now self.now.core surroundings.now code living }
    {
        self.core
            .next_at_memory_end(deck, surroundings, code, living)
    }

    /// The entry of that index, which is the unit's own, changes it. An abort that lands is the first that is pending.
    #[tactic(auto, using(crate::proofs::Landing::lands))]
    pub fn apply(&mut self, deck: &Deck, index: u32, managers: &Managers, what: &What)
        requires can { CanApplyTo deck.now self.old.core managers.now
            (first_abort self.old.pending) what.now }
        requires index { index + 1 < words }
        ensures { self.new ≡ own_change deck.now index managers.now what.now self.old }
    {
        self.core.apply(deck, index, managers, &self.pending, what);
        own_pending(&mut self.pending, what);
    }

    /// The job step task, or an SRB, is born: its request block, of that birth, stands at the first operation of the
    /// program.
    pub fn be_born(&mut self, born: u32, prog: u16)
        requires { self.old ≡ unborn_unit }
        ensures { self.new ≡ at_birth born prog [] self.old }
    {
        self.core.blocks.begin(born, prog);
    }

    /// A subtask is born, as by `be_born`, with the ESTAI routine that its own ATTACHX names, if it names one, and
    /// those of its mother.
    pub fn be_attached(&mut self, born: u32, prog: u16, own: Option<Reg>, mother: &EstaiList)
        requires unborn { self.old ≡ unborn_unit }
        requires room { length (inherited_estais own mother.now) ≤ most_estais }
        ensures { self.new ≡ at_birth born prog (inherited_estais own mother.now) self.old }
    {
        self.core.blocks.begin(born, prog);
        self.core.estais.inherit(mother, own);
    }

    /// An abort is posted, and `late` says that it can't be aborted any more (it is dormant, has begun to end or
    /// doesn't live).
    pub fn post(&mut self, abort: Abort, late: bool) -> Fate
        ensures fate { result ≡ fate_of late abort.class self.old.pending }
        ensures unit { self.new ≡ with_posted late abort self.old }
    {
        self.pending.post(abort, late)
    }

    /// The fate that an abort of the class would have if it was posted now.
    pub fn fate(&self, class: Class, late: bool) -> Fate
        ensures { result ≡ fate_of late class self.now.pending }
    {
        self.pending.fate(class, late)
    }

    /// Memory end takes the unit away.
    pub fn purge(&mut self)
        ensures { self.new ≡ record self.old { core = purged_core self.old.core; pending = [] } }
    {
        self.core.purge();
        self.pending.drop_all();
    }

    /// One more of its commands has arrived. A deck has at most 64.
    pub fn count_arrival(&mut self)
        requires { self.old.arrived < 255 }
        ensures { self.new ≡ record self.old { arrived = self.old.arrived + 1 } }
    {
        self.arrived += 1;
    }

    /// The abort that lands next.
    pub fn first_abort(&self) -> Option<Abort>
        ensures { result ≡ first_abort self.now.pending }
    {
        self.pending.first()
    }

    /// How many of its commands have arrived.
    pub fn arrival_count(&self) -> u8
        ensures { result ≡ self.now.arrived }
    {
        self.arrived
    }

    pub fn has_begun(&self) -> bool
        ensures { result ≡ is_some self.now.core.begun }
    {
        self.core.begun.is_some()
    }

    /// The record of the error by which it has begun to end, if by one.
    pub fn cause(&self) -> Option<Sdwa>
        ensures { result ≡ cause_of self.now.core.begun }
    {
        match self.core.begun {
            Some(begun) => begun.cause,
            None => None,
        }
    }

    /// How many brackets enclose the innermost one.
    pub fn depth(&self) -> u8
        ensures { result ≡ depth_in self.now.core.levels }
    {
        self.core.levels.depth()
    }

    /// Its ESTAI routines, which its subtasks inherit.
    pub fn estais(&self) -> &EstaiList
        ensures { result.now ≡ self.now.core.estais }
    {
        &self.core.estais
    }
}
