//! Units that are born and end, call by call.

use crate::{NotDormant, TaskTree};
use rtm_deck_items::{Name, Unit, UnitKind};
use std::test::Fail;

fn unit(kind: UnitKind) -> Unit {
    Unit {
        name: Name(*b"UNIT    "),
        kind,
        prog: 0,
        related: None,
    }
}

// An SRB, the job step task, two tasks and another SRB.
fn units() -> [Unit; 5] {
    [
        unit(UnitKind::Srb),
        unit(UnitKind::Task),
        unit(UnitKind::Task),
        unit(UnitKind::Task),
        unit(UnitKind::Srb),
    ]
}

#[derive(Clone, Copy, Debug)]
enum Step {
    Start,
    Attach(u16, u16),
    Schedule(u16),
    End(u16),
}

// Does the step, and tells whether a unit was born or ended.
fn make_step(tree: &mut TaskTree, step: Step) -> bool {
    match step {
        Step::Start => true,
        Step::Attach(mother, unit) => (mother as usize) < tree.unit_count()
            && tree.attach(mother, unit).is_ok(),
        Step::Schedule(unit) => tree.schedule(unit).is_ok(),
        Step::End(unit) => {
            tree.end(unit);
            true
        }
    }
}

// How each unit stands: `.` dormant, `L` living, `E` ended; `l` and `e` the same of one that has living subtasks.
fn stands(tree: &TaskTree, unit: u16) -> u8 {
    let letter = if tree.living(unit) {
        b'L'
    } else if tree.ended(unit) {
        b'E'
    } else {
        b'.'
    };
    if tree.subtasks_left(unit) {
        letter + 32
    } else {
        letter
    }
}

// The first unit that lives, of a tree of few units.
fn first_living(tree: &TaskTree) -> Option<u16> {
    if tree.unit_count() > 5 {
        return None;
    }
    tree.first_living()
}

#[test]
fn units_are_born_once(rt: HostRuntime) -> Result<(), Fail> {
    let mut tree = TaskTree::of_units(rt.alloc(), &units(), 1)?;
    // After each step: what it answers, how each unit stands, and which is the first that lives.
    let steps = [
        (Step::Start, true, b".L...", Some(1)),
        (Step::Attach(1, 1), false, b".L...", Some(1)),
        (Step::Attach(1, 3), true, b".l.L.", Some(1)),
        (Step::Attach(3, 3), false, b".l.L.", Some(1)),
        (Step::Attach(3, 2), true, b".lLl.", Some(1)),
        (Step::Schedule(0), true, b"LlLl.", Some(0)),
        (Step::Schedule(0), false, b"LlLl.", Some(0)),
        (Step::End(3), true, b"LLLe.", Some(0)),
        (Step::Attach(1, 3), false, b"LLLe.", Some(0)),
        (Step::End(2), true, b"LLEE.", Some(0)),
        (Step::End(2), true, b"LLEE.", Some(0)),
        (Step::End(4), true, b"LLEE.", Some(0)),
        (Step::Schedule(4), true, b"LLEEL", Some(0)),
        (Step::End(0), true, b"ELEEL", Some(1)),
        (Step::End(1), true, b"EEEEL", Some(4)),
        (Step::End(4), true, b"EEEEE", None),
    ];
    for (step, answer, all, first) in steps {
        assert_eq!(rt; make_step(&mut tree, step), answer, "at {step:?}");
        assert_eq!(rt; first_living(&tree), first, "after {step:?}");
        // The task 3 has one subtask alone, the task 2.
        assert_eq!(rt;
            tree.is_subtask(3, 2),
            tree.subtasks_left(3),
            "after {step:?}"
        );
        for unit in 0..5 {
            assert_eq!(rt;
                stands(&tree, unit),
                all[unit as usize],
                "unit {unit} after {step:?}"
            );
        }
    }
    assert!(rt; tree.has_attached(3, 2) && !tree.has_attached(2, 3) && !tree.has_attached(0, 1));
    // Who attached whom stays for good.
    let mothers = [None, None, Some(3), Some(1), None, None];
    for unit in 0..6 {
        assert_eq!(rt; tree.mother(unit), mothers[unit as usize]);
    }
    assert!(rt; tree.is_dormant(5));
    assert_eq!(rt; tree.schedule(0), Err(NotDormant));
    Ok(())
}

#[test]
fn events_stay_posted(rt: HostRuntime) -> Result<(), Fail> {
    let mut tree = TaskTree::of_units(rt.alloc(), &units(), 1)?;
    for event in 0..=255 {
        assert!(rt; !tree.event_posted(event));
        assert!(rt; tree.post_event(event));
        assert!(rt; tree.event_posted(event));
        assert!(rt; !tree.post_event(event));
    }
    assert!(rt; tree.event_posted(0));
    Ok(())
}
