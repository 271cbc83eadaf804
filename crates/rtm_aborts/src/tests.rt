//! Which aborts land, and in which order.

use crate::{Abort, Class, Fate, Pending, interruptible};
use rtm_codes::Code;

fn abort(class: Class, from: u32) -> Abort {
    Abort {
        class,
        from,
        code: Code::Sys(0x222),
        reason: Some(from),
        dump: true,
        retry: false,
        term_only: true,
    }
}

#[derive(Clone, Copy, Debug)]
enum Step {
    Post(Class, u32),
    Late(Class, u32),
    Land,
    DropAll,
}

// Does the step, and tells the fate of what is posted and the entry that posted what lands.
fn make_step(pending: &mut Pending, step: Step) -> (Option<Fate>, Option<u32>) {
    match step {
        Step::Post(class, from) => (Some(pending.post(abort(class, from), false)), None),
        Step::Late(class, from) => (Some(pending.post(abort(class, from), true)), None),
        Step::Land => (None, pending.land().map(|abort| abort.from)),
        Step::DropAll => {
            pending.drop_all();
            (None, None)
        }
    }
}

#[test]
fn aborts_land_in_order(rt: HostRuntime) {
    let mut pending = Pending::new();
    // After each step: the fate of what is posted, what lands, and what lands next.
    let steps = [
        (Step::Land, None, None, None),
        (Step::Late(Class::Step, 1), Some(Fate::Late), None, None),
        (
            Step::Post(Class::Step, 2),
            Some(Fate::Queued),
            None,
            Some(2),
        ),
        (
            Step::Post(Class::Cancel, 3),
            Some(Fate::Queued),
            None,
            Some(2),
        ),
        (
            Step::Post(Class::Step, 4),
            Some(Fate::Merged),
            None,
            Some(2),
        ),
        (
            Step::Late(Class::Cancel, 5),
            Some(Fate::Late),
            None,
            Some(2),
        ),
        (Step::Land, None, Some(2), Some(3)),
        (
            Step::Post(Class::Step, 6),
            Some(Fate::Queued),
            None,
            Some(3),
        ),
        (Step::Land, None, Some(3), Some(6)),
        (Step::DropAll, None, None, None),
        (Step::Post(Class::Srb, 7), Some(Fate::Queued), None, Some(7)),
        (Step::Land, None, Some(7), None),
    ];
    for (step, fate, landed, next) in steps {
        assert_eq!(rt;
            make_step(&mut pending, step),
            (fate, landed),
            "at {step:?}"
        );
        assert_eq!(rt;
            pending.first().map(|abort| abort.from),
            next,
            "after {step:?}"
        );
    }
}

#[test]
fn each_class_may_be_pending(rt: HostRuntime) {
    let mut pending = Pending::new();
    let classes = [
        Class::Cancel,
        Class::Detach,
        Class::Mother,
        Class::Step,
        Class::Abterm,
        Class::Srb,
    ];
    for class in classes {
        assert!(rt; !pending.has(class));
        assert_eq!(rt; pending.fate(class, false), Fate::Queued);
        assert_eq!(rt; pending.post(abort(class, 9), false), Fate::Queued);
        assert!(rt; pending.has(class));
    }
    for class in classes {
        assert_eq!(rt; pending.fate(class, false), Fate::Merged);
        assert_eq!(rt; pending.fate(class, true), Fate::Late);
        assert_eq!(rt; pending.land(), Some(abort(class, 9)));
        assert!(rt; !pending.has(class));
    }
}

#[test]
fn any_of_four_keeps_an_abort_off(rt: HostRuntime) {
    assert!(rt; interruptible(false, false, false, false));
    assert!(rt; !interruptible(true, false, false, false));
    assert!(rt; !interruptible(false, true, false, false));
    assert!(rt; !interruptible(false, false, true, false));
    assert!(rt; !interruptible(false, false, false, true));
}
