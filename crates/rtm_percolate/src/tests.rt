//! Which routine an error enters, and what a routine's end leaves.

ghost use Rattle.std.specs.Prelude.{◌≡◌, IsTrue};
ghost use Rattle.rtm_deck_operands.specs.Value.{is_return_code};
ghost use Rattle.rtm_model.specs.SetrpCard.{is_setrp_card};

use crate::{Choice, Levels, laws};
use rtm_chains::{EstaeChain, EstaiList, FrrStack};
use rtm_codes::Code;
use rtm_deck_items::{Name, Setrp};
use rtm_model::{Kind, Place, RecordFlags, Reg, Verdict};
use rtm_sdwa::{Sdwa, SdwaFlags};
use std::test::Fail;

#[test]
fn the_law_is_a_call() {
    laws::the_first_of_the_eligible_gets_control();
}

const NO_FLAGS: RecordFlags = RecordFlags {
    clup: false,
    perc: false,
    staf: false,
    step: false,
    reason: false,
    term_only: false,
    dump: false,
    remrec: false,
    logrec: false,
    fresdwa: false,
};

// An abend 0C1, and a cancel's record, which forbids a retry and admits routines with TERM=YES alone.
fn abend() -> Sdwa {
    Sdwa::fresh(Code::Sys(0x0c1), None, SdwaFlags::of(NO_FLAGS))
}

fn cancel() -> Sdwa {
    let flags = SdwaFlags::of(RecordFlags {
        clup: true,
        term_only: true,
        ..NO_FLAGS
    });
    Sdwa::fresh(Code::Sys(0x222), None, flags)
}

// A routine of that bracket, which shields nothing.
fn routine(kind: Kind, born: u32, depth: u8, term: bool) -> Reg
    ensures { result.kind ≡ kind }
{
    Reg {
        kind,
        born,
        owner: 0,
        depth,
        prog: 1,
        term,
        cancel: true,
        xctl: false,
    }
}

// What a choice says: the birth of the routine that is entered, 100 more where it has failed, or the code
// of a begin.
fn answer_of(choice: Choice) -> (Option<u32>, Option<Code>) {
    match choice {
        Choice::Enter(reg) => (Some(reg.born), None),
        Choice::FailRoutine(reg) => (Some(reg.born.saturating_add(100)), None),
        Choice::Begin(sdwa) => (None, Some(sdwa.code)),
    }
}

// FRRs before ESTAE routines, newest first, ESTAI routines last; and of a cancel's error those with TERM=YES alone.
#[test]
fn chooses_in_order(rt: HostRuntime) -> Result<(), Fail> {
    let cases = [
        (
            abend(),
            [Some(5), Some(4), Some(3), Some(1), None],
            Code::Sys(0x0c1),
        ),
        (
            cancel(),
            [Some(3), Some(1), None, None, None],
            Code::Sys(0x222),
        ),
    ];
    for (error, births, code) in cases {
        let mut levels = Levels::with_room(rt.alloc())?;
        let mut frrs = FrrStack::new();
        let mut estaes = EstaeChain::with_room(rt.alloc())?;
        let mut estais = EstaiList::with_room(rt.alloc())?;
        let mother = EstaiList::with_room(rt.alloc())?;
        estais.inherit(&mother, Some(routine(Kind::Estai, 1, 0, true)));
        for reg in [
            routine(Kind::Estae, 3, 0, true),
            routine(Kind::Estae, 4, 0, false),
            routine(Kind::Estae, 9, 1, true),
        ] {
            assert!(rt; estaes.create(reg).is_ok());
        }
        assert!(rt; frrs.add(routine(Kind::Frr, 5, 0, false)).is_ok());
        levels.open_error(error);
        for born in births {
            let choice = levels.choose(&frrs, &estaes, &estais);
            let want = if born.is_some() { None } else { Some(code) };
            assert_eq!(rt; answer_of(choice), (born, want), "at {code:?}");
            let gone = born.unwrap_or(0);
            frrs.remove(gone);
            estaes.remove(gone);
            estais.left(gone);
        }
    }
    Ok(())
}

// An error in a routine that nothing handles: the routine has failed, and a cancel there is handed on.
#[test]
fn hands_a_cancel_on(rt: HostRuntime) -> Result<(), Fail> {
    let cases = [
        (abend(), Code::Sys(0x0c1), Some(4)),
        (cancel(), Code::Sys(0x222), Some(3)),
    ];
    for (error, code, next) in cases {
        let frrs = FrrStack::new();
        let mut estaes = EstaeChain::with_room(rt.alloc())?;
        let estais = EstaiList::with_room(rt.alloc())?;
        assert!(rt; estaes.create(routine(Kind::Estae, 3, 0, true)).is_ok());
        assert!(rt; estaes.create(routine(Kind::Estae, 4, 0, false)).is_ok());
        let mut levels = Levels::with_room(rt.alloc())?;
        levels.open_error(abend());
        levels.enter(routine(Kind::Estae, 6, 0, true), false);
        assert_eq!(rt; (levels.depth(), levels.error_here()), (1, false));
        levels.open_error(error);
        let choice = levels.choose(&frrs, &estaes, &estais);
        assert_eq!(rt; answer_of(choice), (Some(106), None), "at {code:?}");
        levels.fail();
        assert_eq!(rt; (levels.depth(), levels.error_here()), (0, true));
        let choice = levels.choose(&frrs, &estaes, &estais);
        assert_eq!(rt; answer_of(choice), (next, None), "at {code:?}");
        levels.enter(routine(Kind::Estae, 3, 0, true), false);
        let mark = levels.sdwa().map(|sdwa| sdwa.mark());
        assert_eq!(rt; mark.map(|mark| (mark.code, mark.staf)), Some((code, true)));
        levels.clear();
        assert_eq!(rt; (levels.depth(), levels.error_here()), (0, false));
    }
    Ok(())
}

fn asks(rc: u8) -> Setrp
    requires { IsTrue (is_return_code rc) }
    ensures { IsTrue (is_setrp_card result) }
{
    Setrp {
        rc: Some(rc),
        retaddr: Some(Name(*b"AGAIN   ")),
        remrec: None,
        compcod: None,
        reason: None,
        dump: None,
        logrec: None,
        fresdwa: None,
    }
}

// A retry closes the error, percolation leaves it, and a resource manager has no record.
#[test]
fn closes_by_verdict(rt: HostRuntime) -> Result<(), Fail> {
    let mut levels = Levels::with_room(rt.alloc())?;
    levels.open_error(abend());
    assert_eq!(rt;
        levels.error().map(|sdwa| sdwa.code),
        Some(Code::Sys(0x0c1))
    );
    levels.enter(routine(Kind::Estai, 1, 0, false), false);
    assert!(rt; levels.setrp(&asks(16)) && levels.recovers());
    levels.close(Verdict::Stop);
    assert!(rt; !levels.setrp(&asks(0)));
    assert!(rt; levels.error_here());
    levels.enter(routine(Kind::Estae, 2, 0, false), false);
    levels.close(Verdict::Perc);
    assert!(rt; levels.error_here());
    levels.enter(routine(Kind::Frr, 3, 0, false), false);
    assert_eq!(rt; levels.current().map(|reg| reg.born), Some(3));
    assert_eq!(rt; levels.sdwa().map(|sdwa| sdwa.mark().perc), Some(true));
    assert!(rt; levels.setrp(&asks(4)));
    levels.close(Verdict::Retry(Place { prog: 0, op: 2 }));
    assert!(rt; !levels.error_here());
    levels.enter(routine(Kind::Mgr, 4, 0, false), false);
    assert!(rt; !levels.setrp(&asks(4)) && levels.sdwa().is_none());
    assert!(rt; levels.in_manager());
    levels.close(Verdict::Over);
    assert!(rt; !levels.in_manager() && levels.error().is_none());
    assert_eq!(rt; (levels.depth(), levels.current().is_none()), (0, true));
    Ok(())
}

// RET15 stores in the record of the routine that runs, in a bare one too; a routine's own error doesn't change what
// it was entered with.
#[test]
fn stores_what_ret15_names(rt: HostRuntime) -> Result<(), Fail> {
    let mut levels = Levels::with_room(rt.alloc())?;
    let label = Some(Name(*b"AGAIN   "));
    assert!(rt; !levels.bare() && !levels.ret15(4, label));
    levels.open_error(abend());
    assert!(rt; !levels.bare());
    levels.enter(routine(Kind::Estae, 2, 0, false), true);
    assert!(rt; levels.bare() && levels.ret15(4, label));
    levels.open_error(cancel());
    assert!(rt; levels.bare());
    levels.enter(routine(Kind::Frr, 3, 1, false), false);
    assert!(rt; !levels.bare() && levels.ret15(0, None));
    levels.close(Verdict::Retry(Place { prog: 1, op: 2 }));
    assert!(rt; levels.bare());
    let stored = levels.sdwa().map(|sdwa| (sdwa.code, sdwa.rc, sdwa.retaddr));
    assert_eq!(rt; stored, Some((Code::Sys(0x0c1), 4, label)));
    levels.close(Verdict::Bad);
    let stored = levels.error().map(|sdwa| (sdwa.rc, sdwa.retaddr));
    assert_eq!(rt; stored, Some((0, None)));
    assert!(rt; !levels.bare());
    Ok(())
}

// Which routines no abort interrupts.
#[test]
fn some_routines_shield(rt: HostRuntime) -> Result<(), Fail> {
    let cases = [
        (Kind::Frr, true, true),
        (Kind::Mgr, true, true),
        (Kind::Estae, false, true),
        (Kind::Estae, true, false),
        (Kind::Estai, true, false),
    ];
    for (kind, cancel, want) in cases {
        let mut levels = Levels::with_room(rt.alloc())?;
        levels.open_error(abend());
        assert!(rt; !levels.shielded());
        let reg = routine(kind, 1, 0, false);
        levels.enter(Reg { cancel, ..reg }, false);
        levels.open_error(abend());
        levels.enter(routine(Kind::Estae, 2, 1, false), false);
        assert_eq!(rt; levels.shielded(), want, "at {kind:?} {cancel}");
    }
    Ok(())
}
