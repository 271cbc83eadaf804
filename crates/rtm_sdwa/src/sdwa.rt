//! The record of an error: its steps and its verdict.

ghost use Rattle.std.specs.Prelude.{◌≡◌, IsTrue};
ghost use Rattle.std.specs.Option.{unwrap_or};
ghost use Rattle.rtm_codes.specs.Code.{IsInRange};
ghost use Rattle.rtm_model.specs.NextEntry.{card_record, landed_flags, landed_record};
ghost use Rattle.rtm_model.specs.Record.{no_flags, fresh, mark_of, set_by, setrp_in, ret15_in, without_requests, after_percolation, after_failure, after_takeover, inner_failed, retry_place, verdict_by, verdict};
ghost use Rattle.rtm_deck_operands.specs.Value.{is_return_code};
ghost use Rattle.rtm_model.specs.SetrpCard.{is_given_return_code, is_given_abend, is_setrp_card};
ghost use Rattle.rtm_sdwa.specs.Flags.{ten_in};
ghost use Rattle.rtm_sdwa.specs.Sdwa.{IsKept, IsOnRecord};

use crate::flags::SdwaFlags;
use rtm_codes::Code;
use rtm_deck_items::{Deck, Name, Setrp, Three};
use rtm_model::{Abort, Kind, Mark, Place, RecordFlags, Verdict};
use std::marker::Model;

/// The record of an error, the SDWA (Authorized Assembler Services Guide, "Providing recovery").
///
/// A contract sees it as the error's record of the definitions. Both codes are in range, the return code is 0, 4 or 16,
/// none but the ten flags stand, and the flag REASON stands exactly where there is a reason.
#[derive(Clone, Copy, Debug)]
pub struct Sdwa {
    pub code: Code,
    /// The code that the error began with.
    pub first: Code,
    pub reason: Option<u32>,
    pub flags: SdwaFlags,
    /// What SETRP or RET15 asked for: 0 percolate, 4 retry, 16 stop.
    pub rc: u8,
    /// The label of the retry.
    pub retaddr: Option<Name>,
}

impl Model for Sdwa {
    ghost use Rattle.rtm_model.specs.declared.error_record.ErrorRecord.{ErrorRecord};
    ghost use Rattle.rtm_sdwa.specs.Flags.{ten_in, word_in, word_of, HasFlagsAlone};
    ghost use Rattle.rtm_sdwa.specs.Sdwa.{IsKept};

    ghost Value = { ErrorRecord };

    ghost view = { λ a. record {
      code = a.code;
      first = a.first;
      reason = a.reason;
      flags = ten_in a.flags;
      rc = a.rc;
      retaddr = a.retaddr;
    } };

    ghost invariant = { λ a. IsKept (record {
      code = a.code;
      first = a.first;
      reason = a.reason;
      flags = ten_in a.flags;
      rc = a.rc;
      retaddr = a.retaddr;
    }) × HasFlagsAlone (word_in a.flags) };

    ghost inverse = { λ r. record {
      code = r.code;
      first = r.first;
      reason = r.reason;
      flags = record { 0 = word_of r.flags };
      rc = r.rc;
      retaddr = r.retaddr;
    } };

    ghost inverse_ok = { λ a h i. record {
      code = a.code;
      first = a.first;
      reason = a.reason;
      flags = record { 0 = h.1 i };
      rc = a.rc;
      retaddr = a.retaddr;
    } };
}

// What DUMP= or RECORD= makes of its flag.
fn set_by(option: Option<Three>, flag: bool) -> bool
    ensures { result ≡ set_by option flag }
{
    match option {
        Some(Three::Yes) => true,
        Some(Three::No) => false,
        _ => flag,
    }
}

// The code that COMPCOD= gives, or what was there.
fn code_or(given: Option<Code>, code: Code) -> Code
    requires given { IsTrue (is_given_abend given) }
    requires code { IsInRange code }
    ensures value { result ≡ unwrap_or given code }
    ensures in_range { IsInRange result }
{
    match given {
        Some(new) => new,
        None => code,
    }
}

// The return code that RC= gives, or what was there.
fn rc_or(given: Option<u8>, rc: u8) -> u8
    requires given { IsTrue (is_given_return_code given) }
    requires rc { IsTrue (is_return_code rc) }
    ensures value { result ≡ unwrap_or given rc }
    ensures in_range { IsTrue (is_return_code result) }
{
    match given {
        Some(new) => new,
        None => rc,
    }
}

// No flag.
fn no_flags() -> RecordFlags
    ensures { result ≡ no_flags }
{
    RecordFlags {
        clup: false,
        perc: false,
        staf: false,
        step: false,
        reason: false,
        term_only: false,
        dump: false,
        remrec: false,
        logrec: false,
        fresdwa: false,
    }
}

// What a landed abort asks for.
fn landed_flags(abort: &Abort) -> RecordFlags
    ensures { result ≡ landed_flags abort.now }
{
    RecordFlags {
        clup: !abort.retry,
        term_only: abort.term_only,
        dump: abort.dump,
        ..no_flags()
    }
}

// What a routine asked for is forgotten.
fn without_requests(flags: RecordFlags) -> RecordFlags
    ensures { result ≡ without_requests flags }
{
    RecordFlags {
        remrec: false,
        logrec: false,
        fresdwa: false,
        ..flags
    }
}

impl Sdwa {
    /// The record of an error that has just come: both codes are the given one. The flag REASON follows the reason,
    /// whatever it is in `flags`.
    pub fn fresh(code: Code, reason: Option<u32>, flags: SdwaFlags) -> Sdwa
        requires { IsInRange code }
        ensures { result ≡ fresh code reason (ten_in flags) }
    {
        let flags = RecordFlags {
            reason: reason.is_some(),
            ..flags.ten()
        };
        Sdwa {
            code,
            first: code,
            reason,
            flags: SdwaFlags::of(flags),
            rc: 0,
            retaddr: None,
        }
    }

    /// The record of a card's error at first: no retry where the unit is doomed (this profile).
    pub fn of_card(doomed: bool, code: Code, reason: Option<u32>, dump: bool, step: bool) -> Sdwa
        requires { IsInRange code }
        ensures { result ≡ card_record doomed code reason dump step }
    {
        let flags = RecordFlags {
            clup: doomed,
            dump,
            step,
            ..no_flags()
        };
        Sdwa::fresh(code, reason, SdwaFlags::of(flags))
    }

    /// The record of an abort that lands, at first.
    pub fn of_abort(abort: &Abort) -> Sdwa
        requires { IsInRange abort.now.code }
        ensures { result ≡ landed_record abort.now }
    {
        Sdwa::fresh(abort.code, abort.reason, SdwaFlags::of(landed_flags(abort)))
    }

    /// SETRP: what the card's options name is changed (Assembler Services Reference, SETRP).
    pub fn setrp(&mut self, card: &Setrp)
        requires { IsTrue (is_setrp_card card.now) }
        ensures { self.new ≡ setrp_in card.now self.old }
    {
        let flags = self.flags.ten();
        let reason = card.reason.or(self.reason);
        self.code = code_or(card.compcod, self.code);
        self.reason = reason;
        self.flags = SdwaFlags::of(RecordFlags {
            reason: reason.is_some(),
            dump: set_by(card.dump, flags.dump),
            remrec: card.remrec.unwrap_or(flags.remrec),
            logrec: set_by(card.logrec, flags.logrec),
            fresdwa: card.fresdwa.unwrap_or(flags.fresdwa),
            ..flags
        });
        self.rc = rc_or(card.rc, self.rc);
        self.retaddr = card.retaddr.or(self.retaddr);
    }

    /// RET15: the return code is stored, and the label of the retry where it is given (this profile).
    pub fn ret15(&mut self, rc: u8, label: Option<Name>)
        requires { IsTrue (is_return_code rc) }
        ensures { self.new ≡ ret15_in rc label self.old }
    {
        self.rc = rc;
        self.retaddr = label.or(self.retaddr);
    }

    // Where the error would be retried, if it would.
    fn retry_place(&self, retry_prog: u16, deck: &Deck) -> Option<Place>
        ensures { result ≡ retry_place deck.now retry_prog self.now }
    {
        if self.rc != 4 || self.flags.ten().clup {
            return None;
        }
        let label = self.retaddr?;
        let op = deck.label_at(retry_prog, &label)?;
        Some(Place {
            prog: retry_prog,
            op,
        })
    }

    /// What the end of a routine of that kind means, where the request block of a retry stands in the program
    /// `retry_prog` of the deck.
    pub fn verdict(&self, kind: Kind, retry_prog: u16, deck: &Deck) -> Verdict
        ensures value { result ≡ verdict deck.now kind retry_prog self.now }
        ensures one_of_four { IsOnRecord result }
    {
        self.verdict_by(kind, self.retry_place(retry_prog, deck))
    }

    /// The same, where that is the place of the retry, if there is one.
    pub(crate) fn verdict_by(&self, kind: Kind, place: Option<Place>) -> Verdict
        ensures value { result ≡ verdict_by kind self.now.rc place }
        ensures one_of_four { IsOnRecord result }
    {
        match place {
            Some(place) => Verdict::Retry(place),
            None if self.rc == 16 && kind == Kind::Estai => Verdict::Stop,
            None if self.rc == 0 => Verdict::Perc,
            None => Verdict::Bad,
        }
    }

    /// The routine has percolated: PERC stands, and what it asked for is forgotten.
    pub fn percolate(&mut self)
        ensures { self.new ≡ after_percolation self.old }
    {
        self.flags = SdwaFlags::of(RecordFlags {
            perc: true,
            ..without_requests(self.flags.ten())
        });
        self.rc = 0;
        self.retaddr = None;
    }

    /// The routine has failed by an error that has the record `inner`: STAF stands, what it asked for is forgotten, and
    /// a record that allows a retry takes over from one that forbids it (this profile).
    pub fn inner_failed(&mut self, inner: &Sdwa)
        ensures { self.new ≡ inner_failed inner.now self.old }
    {
        let theirs = inner.flags.ten();
        let flags = RecordFlags {
            staf: true,
            ..without_requests(self.flags.ten())
        };
        self.rc = 0;
        self.retaddr = None;
        if theirs.clup && !flags.clup {
            self.code = inner.code;
            self.reason = inner.reason;
            self.flags = SdwaFlags::of(RecordFlags {
                clup: true,
                reason: inner.reason.is_some(),
                term_only: theirs.term_only,
                dump: theirs.dump,
                ..flags
            });
        } else {
            self.flags = SdwaFlags::of(flags);
        }
    }

    /// What each record keeps: a law of the type, and no work.
    pub fn keeps_its_form(&self)
        ensures { IsKept self.now }
    {
        let _code = &self.code;
    }

    /// What an entry shows of the record.
    pub fn mark(&self) -> Mark
        ensures value { result ≡ mark_of self.now }
        ensures in_range { IsInRange result.code }
    {
        let flags = self.flags.ten();
        Mark {
            code: self.code,
            reason: self.reason,
            clup: flags.clup,
            perc: flags.perc,
            staf: flags.staf,
        }
    }
}
