//! What an entry changes of its own unit's control blocks.

ghost use Rattle.std.specs.Prelude.{◌≡◌, ◌+◌, ◌<◌, ◌==◌, [], find, IfSome, unwrap_or};
ghost use Rattle.std.specs.Option.{option_copied, option_map};
ghost use Rattle.rtm_codes.specs.Code.{IsInRange};
ghost use Rattle.rtm_deck_items.specs.Reading.{op_at};
ghost use Rattle.rtm_deck_items.specs.declared.op.Op.TheVariants.{Return};
ghost use Rattle.rtm_model.specs.Aborts.{first_abort};
ghost use Rattle.rtm_model.specs.Births.{manager_routine};
ghost use Rattle.rtm_model.specs.Limits.{words};
ghost use Rattle.rtm_model.specs.OwnChange.{asks_dump, asks_step, error_record, own_entry, routine_named, with_error, with_landed, with_routine_entered};
ghost use Rattle.rtm_model.specs.inner.Soundness.{IsPlace};
ghost use Rattle.rtm_model.specs.declared.entry.What.TheVariants.{Exec};
ghost use Rattle.rtm_system_unit.specs.Applying.{CanApplyTo, CanBeEntered, HasRoomFor, IsFitting};

use crate::unit_core::Core;
use crate::{here, own_card};
use rtm_aborts::Pending;
use rtm_deck_items::{Deck, Op};
use rtm_ending::Managers;
use rtm_model::{Abort, Kind, Manager1, Mark, Place, Reg, What};
use rtm_sdwa::Sdwa;

// The card at a place; none behind the last card, where a program returns.
#[tactic(auto, using(crate::proofs::Fitting::card_is_fitting))]
#[inline(always)]
fn card_at(deck: &Deck, at: Place) -> Option<&Op>
    ensures value { unwrap_or (option_copied result) Return ≡ op_at deck.now at.prog at.op }
    ensures fitting { IsFitting (unwrap_or (option_copied result) Return) }
{
    deck.keeps_its_form();
    here::card_at(deck, at)
}

fn asks_dump(op: &Op) -> bool
    ensures { result ≡ asks_dump op.now }
{
    match *op {
        Op::Abend { dump, .. } => dump,
        _ => false,
    }
}

fn asks_step(op: &Op) -> bool
    ensures { result ≡ asks_step op.now }
{
    match *op {
        Op::Abend { step, .. } => step,
        _ => false,
    }
}

// A manager, as the routine of a bracket.
fn manager_routine(manager: Manager1) -> Reg
    ensures { result ≡ manager_routine manager }
{
    Reg {
        kind: Kind::Mgr,
        born: manager.born,
        owner: 0,
        depth: 0,
        prog: manager.prog,
        term: false,
        cancel: false,
        xctl: false,
    }
}

// The manager of that birth, as the routine of a bracket.
fn manager_named(born: u32, managers: &Managers) -> Option<Reg>
    ensures { result
        ≡ option_map manager_routine (find (λ manager. manager.born == born) managers.now) }
{
    match managers.manager_born_at(born) {
        Some(manager) => Some(manager_routine(manager)),
        None => None,
    }
}

impl Core {
    fn routine_named(&self, kind: Kind, born: u32, managers: &Managers) -> Option<Reg>
        ensures { result ≡ routine_named kind born managers.now self.now }
    {
        match kind {
            Kind::Frr => self.frrs.routine_born_at(born),
            Kind::Estae => self.estaes.routine_born_at(born),
            Kind::Estai => self.estais.routine_born_at(born),
            Kind::Mgr => manager_named(born, managers),
        }
    }

    /// A card has met with an error.
    pub(crate) fn open_error(&mut self, mark: Mark, op: &Op)
        requires { IsInRange mark.code }
        ensures { self.new ≡ with_error (error_record self.old.doomed mark op.now) self.old }
    {
        let error = Sdwa::of_card(
            self.doomed,
            mark.code,
            mark.reason,
            asks_dump(op),
            asks_step(op),
        );
        self.levels.open_error(error);
    }

    // The card at a place has met with an error.
    #[inline(never)]
    fn fail_at(&mut self, deck: &Deck, at: Place, mark: Mark)
        requires { IsInRange mark.code }
        ensures { self.new
            ≡ with_error (error_record self.old.doomed mark (op_at deck.now at.prog at.op)) self.old }
    {
        match here::card_at(deck, at) {
            None => self.open_error(mark, &Op::Return),
            Some(op) => self.open_error(mark, op),
        }
    }

    // The abort lands, if one is pending.
    fn land(&mut self, abort: Option<Abort>)
        requires { IfSome abort (λ abort. IsInRange abort.code) }
        ensures { self.new ≡ with_landed abort self.old }
    {
        if let Some(abort) = abort {
            self.levels.open_error(Sdwa::of_abort(&abort));
            self.doomed = self.doomed || !abort.retry;
        }
    }

    /// The routine gets control, in a bracket of its own, with an SDWA or bare.
    pub(crate) fn enter(&mut self, index: u32, bare: bool, routine: Option<Reg>)
        requires room { IfSome routine (CanBeEntered self.old) }
        requires index { index + 1 < words }
        ensures { self.new ≡ with_routine_entered index bare routine self.old }
    {
        if let Some(reg) = routine {
            self.blocks.begin(index + 1, reg.prog);
            self.levels.enter(reg, bare);
        }
    }

    // A card was executed.
    fn execute(&mut self, deck: &Deck, index: u32, at: Place, rc: u8)
        requires place { IsPlace deck.now at }
        requires room { HasRoomFor self.old (op_at deck.now at.prog at.op) }
        requires index { index + 1 < words }
        ensures { self.new ≡ own_entry deck.now index [] [] (Exec at rc) self.old }
    {
        // What is read says that a program has few cards, so that a place has another behind it.
        let _cards = deck.lines_of(at.prog);
        match card_at(deck, at) {
            None => self.end_block(),
            Some(op) => self.own_card(index, own_card::place_after(deck, at, rc, op), op),
        }
    }

    /// The entry of that index changes the unit, for which those aborts are pending. An abort that lands is the first.
    #[tactic(auto, using(crate::proofs::Landing::named))]
    pub(crate) fn apply(
        &mut self,
        deck: &Deck,
        index: u32,
        managers: &Managers,
        pending: &Pending,
        what: &What,
    )
        requires can { CanApplyTo deck.now self.old managers.now
            (first_abort pending.now) what.now }
        requires index { index + 1 < words }
        ensures { self.new ≡ own_entry deck.now index managers.now pending.now what.now self.old }
    {
        match *what {
            What::Exec { at, rc } => self.execute(deck, index, at, rc),
            What::Error { at, mark } => self.fail_at(deck, at, mark),
            What::Land { .. } => self.land(pending.first()),
            What::Enter {
                kind,
                reg,
                bare,
                ..
            } => {
                let routine = self.routine_named(kind, reg, managers);
                self.enter(index, bare, routine);
            }
            What::Leave {
                kind,
                reg,
                verdict,
                ..
            } => self.leave(kind, reg, verdict),
            What::Begin { code, .. } => self.begin_to_end(code),
            What::Arrive { .. }
            | What::Release { .. }
            | What::Done { .. }
            | What::Purge { .. }
            | What::MemEnd => {}
        }
    }
}
