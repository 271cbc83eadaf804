//! Whether two entries are the same. The derived `==` of `Entry` means the same, but the search for its proof ends at
//! a limit: what it ensures is spelled out for all pairs of forms at once, and for a mark alone that is too much. So
//! each form is compared by a function of its own.

ghost use Rattle.std.specs.Prelude.{◌≡◌, ◌↔◌, IsTrue, Some};

use rtm_codes::Code;
use rtm_model::{Class, Entry, Fate, Kind, Mark, Place, Res, Verdict, What};

fn is_mark(own: Mark, mark: Mark) -> bool
    ensures { IsTrue result ↔ (own ≡ mark) }
{
    is_code(own.code, mark.code) && own.reason == mark.reason && are_marked(own, mark)
}

fn is_code(own: Code, code: Code) -> bool
    ensures { IsTrue result ↔ (own ≡ code) }
{
    own == code
}

fn are_marked(own: Mark, mark: Mark) -> bool
    ensures { IsTrue result
        ↔ ((own.clup ≡ mark.clup) × (own.perc ≡ mark.perc) × (own.staf ≡ mark.staf)) }
{
    own.clup == mark.clup && own.perc == mark.perc && own.staf == mark.staf
}

fn is_verdict(own: Verdict, verdict: Verdict) -> bool
    ensures { IsTrue result ↔ (own ≡ verdict) }
{
    own == verdict
}

fn are_flags(own_logrec: bool, own_dump: bool, logrec: bool, dump: bool) -> bool
    ensures { IsTrue result ↔ ((own_logrec ≡ logrec) × (own_dump ≡ dump)) }
{
    own_logrec == logrec && own_dump == dump
}

fn is_exec(what: What, at: Place, rc: u8) -> bool
    ensures { IsTrue result ↔ (what ≡ What.Exec at rc) }
{
    match what {
        What::Exec {
            at: own_at,
            rc: own_rc,
        } => own_at == at && own_rc == rc,
        _ => false,
    }
}

fn is_error(what: What, at: Place, mark: Mark) -> bool
    ensures { IsTrue result ↔ (what ≡ What.Error at mark) }
{
    match what {
        What::Error {
            at: own_at,
            mark: own_mark,
        } => own_at == at && is_mark(own_mark, mark),
        _ => false,
    }
}

fn is_land(what: What, class: Class, from: u32, mark: Mark) -> bool
    ensures { IsTrue result ↔ (what ≡ What.Land class from mark) }
{
    match what {
        What::Land {
            class: own_class,
            from: own_from,
            mark: own_mark,
        } => own_class == class && own_from == from && is_mark(own_mark, mark),
        _ => false,
    }
}

fn is_enter(what: What, kind: Kind, reg: u32, mark: Mark, bare: bool) -> bool
    ensures { IsTrue result ↔ (what ≡ What.Enter kind reg mark bare) }
{
    match what {
        What::Enter {
            kind: own_kind,
            reg: own_reg,
            mark: own_mark,
            bare: own_bare,
        } => own_kind == kind && own_reg == reg && is_mark(own_mark, mark) && own_bare == bare,
        _ => false,
    }
}

fn is_leave(what: What, kind: Kind, reg: u32, verdict: Verdict, logrec: bool, dump: bool) -> bool
    ensures { IsTrue result ↔ (what ≡ What.Leave kind reg verdict logrec dump) }
{
    match what {
        What::Leave {
            kind: own_kind,
            reg: own_reg,
            verdict: own_verdict,
            logrec: own_logrec,
            dump: own_dump,
        } => own_kind == kind
            && own_reg == reg
            && is_verdict(own_verdict, verdict)
            && are_flags(own_logrec, own_dump, logrec, dump),
        _ => false,
    }
}

fn is_begin(what: What, code: Code, dump: bool) -> bool
    ensures { IsTrue result ↔ (what ≡ What.Begin code dump) }
{
    match what {
        What::Begin {
            code: own_code,
            dump: own_dump,
        } => own_code == code && own_dump == dump,
        _ => false,
    }
}

fn is_release(what: What, class: Res, id: u32, owner: u16) -> bool
    ensures { IsTrue result ↔ (what ≡ What.Release class id owner) }
{
    match what {
        What::Release {
            class: own_class,
            id: own_id,
            owner: own_owner,
        } => own_class == class && own_id == id && own_owner == owner,
        _ => false,
    }
}

fn is_done(what: What, code: Code, to_task: Option<Fate>, to_step: Option<Fate>) -> bool
    ensures { IsTrue result ↔ (what ≡ What.Done code to_task to_step) }
{
    match what {
        What::Done {
            code: own_code,
            to_task: own_to_task,
            to_step: own_to_step,
        } => own_code == code && own_to_task == to_task && own_to_step == to_step,
        _ => false,
    }
}

fn is_purge(what: What, unit: u16) -> bool
    ensures { IsTrue result ↔ (what ≡ What.Purge unit) }
{
    match what {
        What::Purge { unit: own_unit } => own_unit == unit,
        _ => false,
    }
}

fn is_what(found: What, what: What) -> bool
    ensures { IsTrue result ↔ (found ≡ what) }
{
    match what {
        What::Exec { at, rc } => is_exec(found, at, rc),
        What::Error { at, mark } => is_error(found, at, mark),
        What::Land { class, from, mark } => is_land(found, class, from, mark),
        What::Enter {
            kind,
            reg,
            mark,
            bare,
        } => is_enter(found, kind, reg, mark, bare),
        What::Leave {
            kind,
            reg,
            verdict,
            logrec,
            dump,
        } => is_leave(found, kind, reg, verdict, logrec, dump),
        What::Begin { code, dump } => is_begin(found, code, dump),
        What::Release { class, id, owner } => is_release(found, class, id, owner),
        What::Done {
            code,
            to_task,
            to_step,
        } => is_done(found, code, to_task, to_step),
        What::Purge { unit } => is_purge(found, unit),
        What::MemEnd => is_memend(found),
        What::Arrive { cmd, fate } => is_arrive(found, cmd, fate),
    }
}

fn is_memend(what: What) -> bool
    ensures { IsTrue result ↔ (what ≡ What.MemEnd) }
{
    matches!(what, What::MemEnd)
}

fn is_arrive(what: What, cmd: u8, fate: Fate) -> bool
    ensures { IsTrue result ↔ (what ≡ What.Arrive cmd fate) }
{
    match what {
        What::Arrive {
            cmd: own_cmd,
            fate: own_fate,
        } => own_cmd == cmd && own_fate == fate,
        _ => false,
    }
}

/// Whether the next entry that was found is that.
pub(crate) fn is_next(found: Option<What>, what: What) -> bool
    ensures { IsTrue result ↔ (found ≡ Some what) }
{
    match found {
        Some(own) => is_what(own, what),
        None => false,
    }
}

/// Whether the entry that was found is that.
pub(crate) fn is_entry(found: Option<Entry>, entry: Entry) -> bool
    ensures { IsTrue result ↔ (found ≡ Some entry) }
{
    match found {
        Some(own) => own.unit == entry.unit && is_what(own.what, entry.what),
        None => false,
    }
}
