//! Request blocks, call by call.

use crate::{Blocks, Full, Place};
use std::test::Fail;

#[derive(Clone, Copy, Debug)]
enum Step {
    Begin(u32, u16),
    Leave,
    Link(u32, u16),
    Xctl(u16),
    End,
    CutTo(u32),
    SetPlace(u16, u16),
    Clear,
}

// Does the step, and tells what `link` and `end` answer.
fn make_step(blocks: &mut Blocks, step: Step) -> bool {
    match step {
        Step::Begin(born, prog) => {
            if !blocks.is_full() {
                blocks.begin(born, prog);
            }
            true
        }
        Step::Leave => {
            blocks.leave();
            true
        }
        Step::Link(born, prog) => blocks.link(born, prog).is_ok(),
        Step::Xctl(prog) => {
            blocks.xctl(prog);
            true
        }
        Step::End => blocks.end(),
        Step::CutTo(born) => {
            blocks.cut_to(born);
            true
        }
        Step::SetPlace(prog, op) => {
            blocks.set_place(Place { prog, op });
            true
        }
        Step::Clear => {
            blocks.clear();
            true
        }
    }
}

#[test]
fn keeps_blocks(rt: HostRuntime) -> Result<(), Fail> {
    let mut blocks = Blocks::with_room(rt.alloc())?;
    assert!(rt; blocks.newest_block().is_none());
    // After each step: what it answers, the newest block and its place, the oldest, and whether it is the only one.
    let steps = [
        (Step::Begin(0, 7), true, 0, (7, 1), 0, true),
        (Step::SetPlace(7, 3), true, 0, (7, 3), 0, true),
        (Step::Link(4, 8), true, 4, (8, 1), 0, false),
        (Step::Link(6, 9), true, 6, (9, 1), 0, false),
        (Step::Link(9, 9), true, 9, (9, 1), 0, false),
        (Step::Xctl(5), true, 9, (5, 1), 0, false),
        // A routine runs in a bracket of its own.
        (Step::Begin(12, 2), true, 12, (2, 1), 12, true),
        (Step::End, false, 12, (2, 1), 12, true),
        (Step::Link(14, 3), true, 14, (3, 1), 12, false),
        (Step::CutTo(6), true, 14, (3, 1), 12, false),
        (Step::CutTo(12), true, 12, (2, 1), 12, true),
        (Step::Leave, true, 9, (5, 1), 0, false),
        // A retry under an older block.
        (Step::CutTo(4), true, 4, (8, 1), 0, false),
        (Step::SetPlace(8, 6), true, 4, (8, 6), 0, false),
        (Step::End, true, 0, (7, 3), 0, true),
        (Step::End, false, 0, (7, 3), 0, true),
        (Step::Begin(20, 1), true, 20, (1, 1), 20, true),
        (Step::Clear, true, 0, (0, 0), 0, false),
        (Step::Leave, true, 0, (0, 0), 0, false),
        // A manager's routine, once the unit has begun to end.
        (Step::Begin(30, 4), true, 30, (4, 1), 30, true),
    ];
    for (given, answer, newest, (prog, op), oldest, alone) in steps {
        assert_eq!(rt; make_step(&mut blocks, given), answer, "at {given:?}");
        assert_eq!(rt; blocks.newest(), newest, "after {given:?}");
        assert_eq!(rt; blocks.place(), Place { prog, op }, "after {given:?}");
        assert_eq!(rt; blocks.oldest(), oldest, "after {given:?}");
        assert_eq!(rt; blocks.is_last(), alone, "after {given:?}");
    }
    Ok(())
}

#[test]
fn finds_blocks_by_birth(rt: HostRuntime) -> Result<(), Fail> {
    let mut blocks = Blocks::with_room(rt.alloc())?;
    blocks.begin(0, 7);
    for born in 1..4 {
        assert_eq!(rt; blocks.link(born, 10), Ok(()));
    }
    blocks.xctl(11);
    let places = [(0, 7), (1, 10), (2, 10), (3, 11)];
    for (born, prog) in places {
        assert_eq!(rt; blocks.place_of(born), Place { prog, op: 1 });
    }
    assert_eq!(rt; blocks.place_of(4), Place { prog: 0, op: 0 });
    assert_eq!(rt; (blocks.outer_newest(), blocks.outer_oldest()), (0, 0));
    // A routine runs in a bracket of its own, and the other one encloses it.
    make_step(&mut blocks, Step::Begin(9, 12));
    assert_eq!(rt; (blocks.newest(), blocks.oldest()), (9, 9));
    assert_eq!(rt; (blocks.outer_newest(), blocks.outer_oldest()), (3, 0));
    for (born, prog) in places {
        assert_eq!(rt; blocks.outer_place_of(born), Place { prog, op: 1 });
        assert_eq!(rt; blocks.place_of(born), Place { prog: 0, op: 0 });
    }
    assert_eq!(rt; blocks.outer_place_of(9), Place { prog: 0, op: 0 });
    assert_eq!(rt; blocks.newest_block().map(|block| block.born), Some(9));
    blocks.clear();
    assert!(rt; blocks.newest_block().is_none());
    Ok(())
}

#[test]
fn holds_sixteen_brackets_of_thirty_two(rt: HostRuntime) -> Result<(), Fail> {
    let mut blocks = Blocks::with_room(rt.alloc())?;
    // What was in a bracket that is gone is not in the next one.
    for bracket in 0..16 {
        assert!(rt; !blocks.is_full());
        make_step(&mut blocks, Step::Begin(bracket * 100, 1));
        for born in 1..32 {
            assert!(rt; !blocks.is_bracket_full());
            assert_eq!(rt; blocks.link(bracket * 100 + born, 2), Ok(()));
        }
        assert!(rt; blocks.is_bracket_full());
        assert_eq!(rt; blocks.link(9999, 3), Err(Full));
        assert_eq!(rt; blocks.newest(), bracket * 100 + 31);
    }
    assert!(rt; blocks.is_full());
    blocks.leave();
    make_step(&mut blocks, Step::Begin(5000, 4));
    assert_eq!(rt; blocks.newest(), 5000);
    assert!(rt; blocks.is_last());
    Ok(())
}
