//! One unit: what its cards do, and what entries change of it.

ghost use Rattle.rtm_codes.specs.Code.{IsInRange};

use crate::UnitOfWork;
use crate::unit_core::Core;
use rtm_chains::EstaiList;
use rtm_codes::Code;
use rtm_deck_items::{Name, Op, Res, Setrp};
use rtm_model::{Abort, Class, Fate, Kind, Mark, Outcome, Place, Reg, Surroundings, Verdict};
use std::test::Fail;

// What others are to the unit when its card comes.
#[derive(Clone, Copy)]
enum Near {
    /// Nothing bears on it.
    Alone,
    /// What it would add has no room.
    Crowded,
    /// What it names is there.
    Found,
    /// It is an SRB's.
    Srb,
}

fn surroundings(near: Near) -> Surroundings {
    Surroundings {
        srb: matches!(near, Near::Srb),
        abort: None,
        subtask: false,
        manager: None,
        holding: None,
        crowded: matches!(near, Near::Crowded),
        found: matches!(near, Near::Found),
        unborn: false,
        own: false,
        fate: Fate::Late,
        to_task: None,
        to_step: None,
    }
}

const NO_OPTIONS: Setrp = Setrp {
    rc: None,
    retaddr: None,
    remrec: None,
    compcod: None,
    reason: None,
    dump: None,
    logrec: None,
    fresdwa: None,
};

fn first_mark(code: Code) -> Mark
    requires { IsInRange code }
    ensures { IsInRange result.code }
{
    Mark {
        code,
        reason: None,
        clup: false,
        perc: false,
        staf: false,
    }
}

fn get() -> Op {
    Op::Get {
        class: Res::Enq,
        id: 7,
    }
}

fn abort(class: Class, from: u32) -> Abort {
    Abort {
        class,
        from,
        code: Code::Sys(0x222),
        reason: None,
        dump: false,
        retry: false,
        term_only: true,
    }
}

fn estai(born: u32) -> Reg {
    Reg {
        kind: Kind::Estai,
        born,
        owner: 0,
        depth: 0,
        prog: 5,
        term: false,
        cancel: true,
        xctl: false,
    }
}

fn execution_with(rc: u8) -> Outcome {
    Outcome::Executed { rc }
}

fn error(number: u16) -> Outcome {
    Outcome::Abends {
        code: Code::Sys(number),
        reason: None,
        dump: false,
        step: false,
    }
}

#[test]
fn cards_have_their_rows(rt: HostRuntime) -> Result<(), Fail> {
    let mut core = Core::with_room(rt.alloc())?;
    core.blocks.begin(0, 3);
    let rows = [
        (Op::Nop, Near::Alone, execution_with(0)),
        (get(), Near::Alone, execution_with(0)),
        (get(), Near::Crowded, error(0xEE4)),
        (Op::Link { prog: 4 }, Near::Alone, execution_with(0)),
        (Op::Link { prog: 4 }, Near::Srb, error(0x0F8)),
        (Op::Return, Near::Alone, Outcome::Returns),
        (Op::EstaexZero, Near::Alone, execution_with(8)),
        (Op::FrrDelete, Near::Alone, execution_with(4)),
        (Op::FrrAdd { prog: 4 }, Near::Alone, execution_with(0)),
        (
            Op::Detach {
                unit: 1,
                stae: false,
            },
            Near::Alone,
            error(0x23E),
        ),
        (Op::Wait { event: 1 }, Near::Alone, Outcome::Waits),
        (Op::Wait { event: 1 }, Near::Found, execution_with(0)),
        (Op::Wait { event: 1 }, Near::Srb, error(0x0F8)),
        (Op::Post { event: 1 }, Near::Found, execution_with(4)),
        (
            Op::MgrAdd {
                prog: 4,
                space: true,
            },
            Near::Crowded,
            error(0xEE5),
        ),
    ];
    for (op, near, outcome) in rows {
        assert_eq!(rt;
            core.outcome(&surroundings(near), &op),
            outcome,
            "at {op:?}"
        );
    }
    Ok(())
}

// A card that reads a record, and those that change it, in a recovery routine, with an SDWA and bare, and outside of
// one.
#[test]
fn bare_routines_have_no_sdwa(rt: HostRuntime) -> Result<(), Fail> {
    let label = Name(*b"AGAIN   ");
    let ret15 = Op::Ret15 {
        rc: 4,
        label: Some(label),
    };
    let code = Code::User(7);
    // In the routine of an ESTAEX, with an SDWA and without one; outside of a routine each is an EE6.
    let rows = [
        (Op::SetRp(NO_OPTIONS), execution_with(0), error(0xEE7)),
        (ret15, execution_with(0), execution_with(0)),
        (
            Op::IfCode { code, label },
            execution_with(4),
            execution_with(4),
        ),
        (Op::IfClup { label }, execution_with(0), error(0xEE7)),
        (Op::IfPerc { label }, execution_with(0), error(0xEE7)),
    ];
    for (op, given, bare) in rows {
        let mut core = Core::with_room(rt.alloc())?;
        core.blocks.begin(0, 3);
        assert_eq!(rt; core.outcome(&surroundings(Near::Alone), &op), error(0xEE6));
        core.open_error(first_mark(code), &Op::Nop);
        core.enter(2, false, Some(estai(1)));
        assert_eq!(rt;
            core.outcome(&surroundings(Near::Alone), &op),
            given,
            "at {op:?}"
        );
        core.leave(Kind::Estai, 1, Verdict::Perc);
        core.enter(4, true, Some(estai(1)));
        assert_eq!(rt;
            core.outcome(&surroundings(Near::Alone), &op),
            bare,
            "at {op:?}"
        );
    }
    Ok(())
}

#[test]
fn a_unit_is_posted_to_and_purged(rt: HostRuntime) -> Result<(), Fail> {
    let mut unit = UnitOfWork::with_room(rt.alloc())?;
    unit.be_born(0, 3);
    assert_eq!(rt; unit.post(abort(Class::Cancel, 4), false), Fate::Queued);
    assert_eq!(rt; unit.post(abort(Class::Cancel, 5), false), Fate::Merged);
    assert_eq!(rt; unit.post(abort(Class::Step, 6), true), Fate::Late);
    assert_eq!(rt; unit.fate(Class::Step, false), Fate::Queued);
    assert_eq!(rt; unit.first_abort(), Some(abort(Class::Cancel, 4)));
    unit.count_arrival();
    unit.count_arrival();
    assert_eq!(rt; unit.arrival_count(), 2);
    unit.purge();
    assert_eq!(rt; unit.first_abort(), None);
    assert_eq!(rt; unit.arrival_count(), 2);
    assert!(rt; !unit.has_begun());
    Ok(())
}

#[test]
fn subtasks_inherit(rt: HostRuntime) -> Result<(), Fail> {
    let none = EstaiList::with_room(rt.alloc())?;
    let mut mother = UnitOfWork::with_room(rt.alloc())?;
    mother.be_attached(3, 1, Some(estai(2)), &none);
    let mut daughter = UnitOfWork::with_room(rt.alloc())?;
    daughter.be_attached(9, 1, Some(estai(8)), mother.estais());
    let first = daughter.estais().next(false);
    assert_eq!(rt; first.map(|reg| reg.born), Some(8));
    assert!(rt; daughter.estais().routine_born_at(2).is_some());
    assert!(rt; mother.estais().routine_born_at(8).is_none());
    Ok(())
}

#[test]
fn an_frr_retries(rt: HostRuntime) -> Result<(), Fail> {
    let mut core = Core::with_room(rt.alloc())?;
    core.blocks.begin(0, 3);
    let add = Op::FrrAdd { prog: 4 };
    core.own_card(0, Place { prog: 3, op: 2 }, &add);
    core.open_error(first_mark(Code::User(7)), &Op::Nop);
    let frr = core.frrs.routine_born_at(0);
    assert_eq!(rt; frr.map(|reg| reg.prog), Some(4));
    core.enter(2, false, frr);
    assert_eq!(rt; core.levels.depth(), 1);
    assert_eq!(rt; core.blocks.place(), Place { prog: 4, op: 1 });
    core.leave(Kind::Frr, 0, Verdict::Retry(Place { prog: 3, op: 5 }));
    assert_eq!(rt; core.levels.depth(), 0);
    assert!(rt; !core.levels.error_here() && core.frrs.any());
    assert_eq!(rt; core.blocks.place(), Place { prog: 3, op: 5 });
    Ok(())
}
