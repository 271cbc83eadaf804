//! The brackets of a unit, with their routines and open errors.

ghost use Rattle.std.specs.Prelude.{◌≡◌, ◌<◌, ◌≤◌, ◌↔◌, ◌||◌, ◌&&◌, Bool, not, is_some, length, IsTrue, IsSome, IfSome, IfOk, Some, None};
ghost use Rattle.rtm_model.specs.Levels.{outermost_alone, current, error_in, error_here, depth_in, is_bare, is_manager, is_recovery, recovers, record_in, shielded, first_eligible, next_frr, next_estai_at, verdict_in, verdict_of_routine, after_error, after_enter, after_setrp, after_ret15, after_leave};
ghost use Rattle.rtm_model.specs.Limits.{most_brackets};
ghost use Rattle.rtm_deck_operands.specs.Value.{is_return_code};
ghost use Rattle.rtm_model.specs.Cards.{in_manager};
ghost use Rattle.rtm_model.specs.SetrpCard.{is_setrp_card};
ghost use Rattle.rtm_percolate.specs.Choices.{choice_for};
ghost use Rattle.rtm_percolate.specs.Nested.{is_over};

use crate::bracket::{self, Bracket, OUTERMOST};
use crate::choice::Choice;
use rtm_chains::{EstaeChain, EstaiList, FrrStack};
use rtm_codes::NoMemory;
use rtm_deck_items::{Deck, Name, Setrp};
use rtm_model::{Kind, MOST_BRACKETS, Reg, Verdict};
use rtm_sdwa::Sdwa;
use std::alloc::Global;
use std::marker::Model;

/// The brackets of a unit, at most `MOST_BRACKETS`, each with the routine that runs in it and its open error.
///
/// A contract sees them as a list of brackets, newest first. The last is the outermost bracket, which is always there
/// and has no routine. Every other bracket was entered for a recovery routine, and then the error that it was entered
/// for is open in the enclosing one, or for a resource manager.
#[derive(Drop)]
pub struct Levels {
    list: Vec<Bracket>,
}

impl Model for Levels {
    ghost use Rattle.std.specs.Prelude.{◌<◌, ◌≤◌, List, length, reverse, vec_capacity};
    ghost use Rattle.rtm_model.specs.Levels.{Bracket};
    ghost use Rattle.rtm_model.specs.Limits.{most_brackets};
    ghost use Rattle.rtm_percolate.specs.Nested.{IsNested};

    ghost Value = { List Bracket };

    ghost view = { λ a. reverse a.list.items };

    ghost invariant = { λ a. IsNested (reverse a.list.items) × (0 < length a.list.items)
        × (length a.list.items ≤ most_brackets) × (most_brackets ≤ vec_capacity a.list) };
}

fn is_recovery(routine: Option<Reg>) -> bool
    ensures { result ≡ is_recovery routine }
{
    match routine {
        None => false,
        Some(reg) => reg.kind != Kind::Mgr,
    }
}

// The verdict by the record of the routine; Over where it has none.
fn verdict_of_routine(
    deck: &Deck,
    retry_prog: u16,
    routine: Option<Reg>,
    sdwa: Option<Sdwa>,
) -> Verdict
    ensures value { result ≡ verdict_of_routine deck.now retry_prog routine sdwa }
    ensures over { is_over result ≡ not (is_some routine && is_some sdwa) }
{
    match (routine, sdwa) {
        (Some(reg), Some(sdwa)) => sdwa.verdict(reg.kind, retry_prog, deck),
        _ => Verdict::Over,
    }
}

// The first eligible routine for an error of the bracket of that depth.
fn first_eligible(
    depth: u8,
    term_only: bool,
    frrs: &FrrStack,
    estaes: &EstaeChain,
    estais: &EstaiList,
) -> Option<Reg>
    ensures { result ≡ first_eligible depth term_only frrs.now estaes.now estais.now }
{
    if !term_only && let Some(reg) = frrs.next(depth) {
        return Some(reg);
    }
    if let Some(reg) = estaes.next(depth, term_only) {
        return Some(reg);
    }
    if depth == 0 {
        estais.next(term_only)
    } else {
        None
    }
}

impl Levels {
    /// The outermost bracket alone, and room for as many as may be.
    pub fn with_room(alloc: Global) -> Result<Levels, NoMemory>
        ensures { IfOk result (λ levels. levels ≡ outermost_alone) }
    {
        let mut list = Vec::with_capacity(alloc, MOST_BRACKETS)?;
        bracket::put(&mut list, OUTERMOST);
        Ok(Levels { list })
    }

    /// Whether an error is open in the newest bracket.
    pub fn error_here(&self) -> bool
        ensures { result ≡ error_here self.now }
    {
        bracket::error_here(&self.list)
    }

    /// The record of the error that is open in the newest bracket, if one is open there.
    pub fn error(&self) -> Option<Sdwa>
        ensures { result ≡ error_in self.now }
    {
        bracket::error_in(&self.list)
    }

    /// How many brackets enclose the newest one, 0 to `DEEPEST`.
    pub fn depth(&self) -> u8
        ensures value { result ≡ depth_in self.now }
        ensures bound { result < most_brackets }
    {
        (self.list.len() - 1) as u8
    }

    /// Whether some bracket is an FRR's, a resource manager's, or that of a routine with CANCEL=NO, so that no abort
    /// interrupts the unit.
    pub fn shielded(&self) -> bool
        ensures { result ≡ shielded self.now }
    {
        bracket::shielded(&self.list)
    }

    /// Whether some bracket is a resource manager's.
    pub fn in_manager(&self) -> bool
        ensures { result ≡ in_manager self.now }
    {
        bracket::in_manager(&self.list)
    }

    /// Opens an error in the newest bracket, where none is open.
    pub fn open_error(&mut self, sdwa: Sdwa)
        ensures { self.new ≡ after_error sdwa self.old }
    {
        let newest = bracket::take(&mut self.list);
        bracket::put(&mut self.list, newest.with_open(Some(sdwa)));
    }

    /// What the error that is open in the newest bracket leads to, over the recovery routines of the unit.
    pub fn choose(&self, frrs: &FrrStack, estaes: &EstaeChain, estais: &EstaiList) -> Choice
        requires { IsTrue (error_here self.now) }
        ensures { IfSome (error_in self.now)
            (λ r. result ≡ choice_for self.now frrs.now estaes.now estais.now r) }
    {
        let Some(error) = self.error() else {
            unreachable!("an error is open");
        };
        let term_only = error.flags.ten().term_only;
        match first_eligible(self.depth(), term_only, frrs, estaes, estais) {
            Some(reg) => Choice::Enter(reg),
            None => match self.current() {
                Some(own) => Choice::FailRoutine(own),
                None => Choice::Begin(error),
            },
        }
    }

    /// A routine gets control, in a bracket of its own: a recovery routine for the error that is open in the newest
    /// bracket, or a resource manager. A bare one gets no SDWA (this profile).
    pub fn enter(&mut self, reg: Reg, bare: bool)
        requires room { length self.old < most_brackets }
        requires cause { IsTrue (is_manager reg.kind || error_here self.old) }
        ensures { self.new ≡ after_enter reg bare self.old }
    {
        bracket::put(
            &mut self.list,
            Bracket {
                routine: Some(reg),
                bare,
                error: None,
            },
        );
    }

    /// The routine that runs in the newest bracket, none in the outermost.
    pub fn current(&self) -> Option<Reg>
        ensures { result ≡ current self.now }
    {
        bracket::current(&self.list)
    }

    /// Whether a recovery routine runs in the newest bracket.
    pub fn recovers(&self) -> bool
        ensures { result ≡ recovers self.now }
    {
        is_recovery(self.current())
    }

    /// Whether the routine that runs in the newest bracket was entered without an SDWA.
    pub fn bare(&self) -> bool
        ensures { result ≡ is_bare self.now }
    {
        bracket::is_bare(&self.list)
    }

    /// The record of the recovery routine that runs in the newest bracket: that of the error which it was entered for.
    /// `None` exactly where no recovery routine runs there.
    pub fn sdwa(&self) -> Option<Sdwa>
        ensures value { result ≡ record_in self.now }
        ensures which { IsSome result ↔ IsTrue (recovers self.now) }
    {
        if self.recovers() {
            bracket::enclosing_error(&self.list)
        } else {
            None
        }
    }

    /// SETRP: changes the record of the recovery routine that runs in the newest bracket. False, and no change, exactly
    /// where none runs there.
    pub fn setrp(&mut self, card: &Setrp) -> bool
        requires { IsTrue (is_setrp_card card.now) }
        ensures which { result ≡ recovers self.old }
        ensures levels { self.new ≡ after_setrp card.now self.old }
    {
        if !self.recovers() {
            return false;
        }
        let newest = bracket::take(&mut self.list);
        let outer = bracket::take(&mut self.list);
        bracket::put(&mut self.list, outer.after_setrp(card));
        bracket::put(&mut self.list, newest);
        true
    }

    /// RET15: stores the return code, and the label where it is given, in that record. False, and no change, exactly
    /// where no recovery routine runs in the newest bracket.
    pub fn ret15(&mut self, rc: u8, label: Option<Name>) -> bool
        requires { IsTrue (is_return_code rc) }
        ensures which { result ≡ recovers self.old }
        ensures levels { self.new ≡ after_ret15 rc label self.old }
    {
        if !self.recovers() {
            return false;
        }
        let newest = bracket::take(&mut self.list);
        let outer = bracket::take(&mut self.list);
        bracket::put(&mut self.list, outer.after_ret15(rc, label));
        bracket::put(&mut self.list, newest);
        true
    }

    /// The verdict with which the routine of the newest bracket would be left now: by its record, and Over exactly
    /// where no recovery routine runs there. A retry's request block stands in the program `retry_prog` of the deck.
    pub fn verdict(&self, retry_prog: u16, deck: &Deck) -> Verdict
        ensures value { result ≡ verdict_in deck.now retry_prog self.now }
        ensures over { is_over result ≡ not (recovers self.now) }
    {
        verdict_of_routine(deck, retry_prog, self.current(), self.sdwa())
    }

    /// Closes an inner bracket whose routine has ended: its error is retried, percolates, or stays as it is where the
    /// routine was a resource manager, whose verdict alone is Over. A retry's request block stands in the program
    /// `retry_prog` of the deck.
    pub fn leave(&mut self, retry_prog: u16, deck: &Deck) -> Verdict
        requires { 1 < length self.old }
        ensures verdict { result ≡ verdict_in deck.now retry_prog self.old }
        ensures over { is_over result ≡ not (recovers self.old) }
        ensures levels { self.new ≡ after_leave result self.old }
    {
        let verdict = self.verdict(retry_prog, deck);
        self.close(verdict);
        verdict
    }

    /// Closes an inner bracket and the error that is open in it: its routine has failed.
    pub fn fail(&mut self)
        requires { 1 < length self.old }
        ensures { self.new ≡ after_leave Verdict.Fail self.old }
    {
        self.close(Verdict::Fail);
    }

    /// Closes an inner bracket with that verdict on its routine.
    pub fn close(&mut self, verdict: Verdict)
        requires { 1 < length self.old }
        ensures { self.new ≡ after_leave verdict self.old }
    {
        let newest = bracket::take(&mut self.list);
        let outer = bracket::take(&mut self.list);
        bracket::put(&mut self.list, outer.after_verdict(verdict, newest.error));
    }

    /// The unit has begun to end, or is purged: all errors and inner brackets go.
    pub fn clear(&mut self)
        ensures { self.new ≡ outermost_alone }
    {
        self.list.clear();
        bracket::put(&mut self.list, OUTERMOST);
    }
}
