//! The layers, made over one deck.

ghost use Rattle.std.specs.Prelude.{◌≡◌};

use rtm_board::Board;
use rtm_codes::Code;
use rtm_deck::{Name, read_deck};
use rtm_ending::Holds;
use rtm_model::{Kind, Place, RecordFlags, Reg, Verdict};
use rtm_percolate::Levels;
use rtm_sdwa::{Sdwa, SdwaFlags};
use rtm_tasks::TaskTree;
use std::test::Fail;

const DECK: &[u8] = b"MAIN PROG
 ATTACHX A
AGAIN NOP
 PEND
OTHER PROG
 PEND
S SRB PGM=MAIN
JOB TASK PGM=MAIN
A TASK PGM=MAIN
 OPER
 CANCEL A
 CANCEL JOB,AT=3
 END
";

// A label of the deck's first program, and one of none.
const AGAIN: Name = Name(*b"AGAIN   ");

const NOWHERE: Name = Name(*b"NOWHERE ");

// The record of an abend, which forbids a retry or not.
fn record(clup: bool) -> Sdwa {
    let flags = SdwaFlags::of(RecordFlags {
        clup,
        perc: false,
        staf: false,
        step: false,
        reason: false,
        term_only: false,
        dump: false,
        remrec: false,
        logrec: false,
        fresdwa: false,
    });
    Sdwa::fresh(Code::User(7), None, flags)
}

// A routine of the outermost bracket.
fn routine(kind: Kind) -> Reg
    ensures { result.kind ≡ kind }
{
    Reg {
        kind,
        born: 1,
        owner: 0,
        depth: 0,
        prog: 1,
        term: false,
        cancel: true,
        xctl: false,
    }
}

// With ample memory each layer is made over a deck, as it stands before the first entry.
#[test]
fn layers_are_made_over_a_deck(rt: HostRuntime) -> Result<(), Fail> {
    let alloc = rt.alloc();
    let deck = read_deck(alloc, DECK)?;

    let tree = TaskTree::new(alloc, &deck)?;
    assert!(rt; tree.living(1) && !tree.living(0) && !tree.living(2));
    assert!(rt; tree.is_dormant(0) && tree.is_dormant(2));

    let holds = Holds::with_room(alloc, &deck)?;
    assert!(rt; holds.next_release(None).is_none());

    let (_board, _console, seats) = Board::make(alloc, &deck)?;
    assert_eq!(rt; seats.len(), 3);

    assert!(rt; record(false).verdict(Kind::Estae, 0, &deck) == Verdict::Perc);
    Ok(())
}

// A routine that asks for a retry gets it at a label of the program of the retry's request block, and of an error
// that allows one. Else the error stays open, and its record says that a routine percolated.
#[test]
fn retries_are_granted_or_refused(rt: HostRuntime) -> Result<(), Fail> {
    let deck = read_deck(rt.alloc(), DECK)?;
    let rows = [
        (
            false,
            0,
            Some(AGAIN),
            Verdict::Retry(Place { prog: 0, op: 2 }),
        ),
        (false, 1, Some(AGAIN), Verdict::Bad),
        (false, 9, Some(AGAIN), Verdict::Bad),
        (false, 0, Some(NOWHERE), Verdict::Bad),
        (false, 0, None, Verdict::Bad),
        (true, 0, Some(AGAIN), Verdict::Bad),
    ];
    for (clup, prog, label, want) in rows {
        let mut levels = Levels::with_room(rt.alloc())?;
        levels.open_error(record(clup));
        levels.enter(routine(Kind::Estae), false);
        assert!(rt; levels.ret15(4, label));
        assert_eq!(rt; (levels.depth(), levels.error_here()), (1, false));
        let verdict = levels.leave(prog, &deck);
        assert_eq!(rt; verdict, want, "in the program {prog}");
        assert_eq!(rt; (levels.depth(), levels.recovers()), (0, false));
        let perc = levels.error().map(|error| error.mark().perc);
        let refused = if want == Verdict::Bad {
            Some(true)
        } else {
            None
        };
        assert_eq!(rt; perc, refused, "in the program {prog}");
    }
    Ok(())
}

// Brackets within one another are left from the innermost on: a resource manager's, which has no record, that of a
// routine that percolates, and that of an ESTAI routine which asks for a stop.
#[test]
fn brackets_are_left_one_by_one(rt: HostRuntime) -> Result<(), Fail> {
    let deck = read_deck(rt.alloc(), DECK)?;
    let mut levels = Levels::with_room(rt.alloc())?;
    levels.open_error(record(false));
    levels.enter(routine(Kind::Estai), false);
    assert!(rt; levels.ret15(16, None));
    levels.open_error(record(true));
    levels.enter(routine(Kind::Frr), false);
    levels.enter(routine(Kind::Mgr), false);
    assert_eq!(rt; (levels.depth(), levels.in_manager()), (3, true));
    assert!(rt; !levels.ret15(4, None));
    let verdict = levels.leave(0, &deck);
    assert_eq!(rt; verdict, Verdict::Over);
    assert_eq!(rt; (levels.depth(), levels.in_manager()), (2, false));
    let verdict = levels.leave(0, &deck);
    assert_eq!(rt; verdict, Verdict::Perc);
    assert_eq!(rt; (levels.depth(), levels.error_here()), (1, true));
    let verdict = levels.leave(0, &deck);
    assert_eq!(rt; verdict, Verdict::Stop);
    assert_eq!(rt; (levels.depth(), levels.error_here()), (0, true));
    assert!(rt; levels.current().is_none() && levels.sdwa().is_none());
    Ok(())
}
