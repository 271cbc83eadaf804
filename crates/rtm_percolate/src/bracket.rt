//! One bracket, and lists of brackets over room that was reserved: the outermost stands first, the newest last.

ghost use Rattle.std.specs.Prelude.{◌≡◌, ◌+◌, ◌<◌, ◌∷◌, [], length, reverse, vec_len, vec_capacity, is_some};
ghost use Rattle.std.specs.List.{list_any};
ghost use Rattle.rtm_deck_operands.specs.Value.{is_return_code};
ghost use Rattle.rtm_model.specs.Record.{setrp_in, ret15_in, after_percolation, inner_failed};
ghost use Rattle.rtm_model.specs.Levels.{enclosing_bracket, current, error_here, error_in, error_of, is_bare, shields, shielded, on_record, with_open, after_verdict, after_inner_failure};
ghost use Rattle.rtm_model.specs.Cards.{manages, in_manager};
ghost use Rattle.rtm_model.specs.SetrpCard.{is_setrp_card};
ghost use Rattle.std.specs.Prelude.{IsTrue, None, Some};

use rtm_deck_items::{Name, Setrp};
use rtm_model::{Kind, Reg, Verdict};
use rtm_sdwa::Sdwa;
use std::marker::Model;

/// A bracket: the routine that runs in it, none in the outermost, whether that was entered without an SDWA, and the
/// record of its open error.
#[derive(Clone, Copy)]
pub(crate) struct Bracket {
    pub(crate) routine: Option<Reg>,
    pub(crate) bare: bool,
    pub(crate) error: Option<Sdwa>,
}

impl Model for Bracket {
    ghost use Rattle.rtm_model.specs.Levels.{Bracket};

    ghost Value = { Bracket };

    ghost view = { λ a. record { routine = a.routine; bare = a.bare; error = a.error } };

    ghost inverse = { λ l. record { routine = l.routine; bare = l.bare; error = l.error } };
}

/// The outermost bracket, with no error.
pub(crate) const OUTERMOST: Bracket = Bracket {
    routine: None,
    bare: false,
    error: None,
};

impl Bracket {
    /// Whether no abort interrupts its routine: an FRR, a resource manager, or one with CANCEL=NO.
    pub(crate) fn shields(&self) -> bool
        ensures { result ≡ shields self.now.routine }
    {
        match self.routine {
            None => false,
            Some(reg) => matches!(reg.kind, Kind::Frr | Kind::Mgr) || !reg.cancel,
        }
    }

    /// Whether its routine is a resource manager.
    pub(crate) fn manages(&self) -> bool
        ensures { result ≡ manages self.now.routine }
    {
        match self.routine {
            None => false,
            Some(reg) => reg.kind == Kind::Mgr,
        }
    }

    /// With that error open, or none.
    pub(crate) fn with_open(self, error: Option<Sdwa>) -> Bracket
        ensures { result ≡ with_open error self }
    {
        Bracket { error, ..self }
    }

    /// With what SETRP makes of its error's record.
    pub(crate) fn after_setrp(self, card: &Setrp) -> Bracket
        requires { IsTrue (is_setrp_card card.now) }
        ensures value { result ≡ on_record (setrp_in card.now) self }
        ensures keeps { is_some result.error ≡ is_some self.error }
    {
        match self.error {
            None => self,
            Some(mut sdwa) => {
                sdwa.setrp(card);
                self.with_open(Some(sdwa))
            }
        }
    }

    /// With what RET15 makes of its error's record.
    pub(crate) fn after_ret15(self, rc: u8, label: Option<Name>) -> Bracket
        requires { IsTrue (is_return_code rc) }
        ensures value { result ≡ on_record (ret15_in rc label) self }
        ensures keeps { is_some result.error ≡ is_some self.error }
    {
        match self.error {
            None => self,
            Some(mut sdwa) => {
                sdwa.ret15(rc, label);
                self.with_open(Some(sdwa))
            }
        }
    }

    // With its error percolated.
    fn after_percolation(self) -> Bracket
        ensures { result ≡ on_record after_percolation self }
    {
        match self.error {
            None => self,
            Some(mut sdwa) => {
                sdwa.percolate();
                self.with_open(Some(sdwa))
            }
        }
    }

    // With what a routine's failure by that error makes of its error's record.
    fn after_inner_failure(self, inner: Option<Sdwa>) -> Bracket
        ensures { result ≡ on_record (after_inner_failure inner) self }
    {
        match (self.error, inner) {
            (Some(mut sdwa), Some(inner)) => {
                sdwa.inner_failed(&inner);
                self.with_open(Some(sdwa))
            }
            _ => self,
        }
    }

    /// After the routine of the bracket within it, where that error was open, was left with that verdict.
    pub(crate) fn after_verdict(self, verdict: Verdict, inner: Option<Sdwa>) -> Bracket
        ensures value { result ≡ after_verdict verdict inner self }
        ensures routine { result.routine ≡ self.routine }
    {
        match verdict {
            Verdict::Retry(_) => self.with_open(None),
            Verdict::Perc | Verdict::Stop | Verdict::Bad => self.after_percolation(),
            Verdict::Fail => self.after_inner_failure(inner),
            Verdict::Over => self,
        }
    }
}

/// Puts a bracket into the newest one, where room is left.
pub(crate) fn put(list: &mut Vec<Bracket>, bracket: Bracket)
    requires { vec_len list.old < vec_capacity list.old }
    ensures items { reverse list.new.items ≡ bracket ∷ reverse list.old.items }
    ensures len { length list.new.items ≡ length list.old.items + 1 }
    ensures capacity { vec_capacity list.new ≡ vec_capacity list.old }
{
    list.push_reserved(bracket);
}

/// Takes the newest bracket.
pub(crate) fn take(list: &mut Vec<Bracket>) -> Bracket
    requires { 0 < vec_len list.old }
    ensures items { reverse list.old.items ≡ result ∷ reverse list.new.items }
    ensures len { length list.new.items + 1 ≡ length list.old.items }
    ensures capacity { vec_capacity list.new ≡ vec_capacity list.old }
{
    list.pop().unwrap()
}

/// The routine of the newest bracket.
pub(crate) fn current(list: &[Bracket]) -> Option<Reg>
    ensures { result ≡ current (reverse list.now) }
{
    match list.last() {
        Some(bracket) => bracket.routine,
        None => None,
    }
}

/// The record of the newest bracket's open error.
pub(crate) fn error_in(list: &[Bracket]) -> Option<Sdwa>
    ensures { result ≡ error_in (reverse list.now) }
{
    match list.last() {
        Some(bracket) => bracket.error,
        None => None,
    }
}

/// Whether an error is open in the newest bracket.
pub(crate) fn error_here(list: &[Bracket]) -> bool
    ensures { result ≡ error_here (reverse list.now) }
{
    match list.last() {
        Some(bracket) => bracket.error.is_some(),
        None => false,
    }
}

/// The record of the open error of the bracket that encloses the newest one.
pub(crate) fn enclosing_error(list: &[Bracket]) -> Option<Sdwa>
    ensures { result ≡ error_of (enclosing_bracket (reverse list.now)) }
{
    match list {
        [.., second, _newest] => second.error,
        _ => None,
    }
}

/// Whether the newest bracket's routine was entered without an SDWA.
pub(crate) fn is_bare(list: &[Bracket]) -> bool
    ensures { result ≡ is_bare (reverse list.now) }
{
    match list.last() {
        Some(bracket) => bracket.bare,
        None => false,
    }
}

/// Whether some bracket's routine is one that no abort interrupts.
pub(crate) fn shielded(list: &[Bracket]) -> bool
    ensures { result ≡ shielded (reverse list.now) }
{
    list.iter().rev().copied().any(|bracket| bracket.shields())
}

/// Whether some bracket's routine is a resource manager.
pub(crate) fn in_manager(list: &[Bracket]) -> bool
    ensures { result ≡ in_manager (reverse list.now) }
{
    list.iter().rev().copied().any(|bracket| bracket.manages())
}
