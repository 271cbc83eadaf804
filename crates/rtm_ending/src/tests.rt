//! Holdings and managers, call by call.

ghost use Rattle.std.specs.Prelude.{◌≡◌, ◌+◌};
ghost use Rattle.rtm_model.specs.Ending.{AreHeldBefore};

use crate::{Act, Full, Holding, Holds, Manager1, Managers, NotFound, Res, next_act};
use std::test::Fail;

#[derive(Clone, Copy, Debug)]
enum HoldStep {
    Get(Res, u32, u16),
    Free(u16, Res, u32),
    Release(u32),
}

// Does the step at the entry `index`, and tells the birth of the holding that it makes or gives.
#[tactic(auto, using(crate::proofs::Before::got_before, crate::proofs::Before::freed_before, crate::proofs::Before::released_before, crate::proofs::Before::later_before))]
fn hold_step(holds: &mut Holds, units: u16, index: u32, step: HoldStep) -> Option<u32>
    requires units { units ≡ holds.old.units }
    requires newest { AreHeldBefore index holds.old.owners }
    ensures units { holds.new.units ≡ holds.old.units }
    ensures newest { AreHeldBefore (index + 1) holds.new.owners }
{
    match step {
        HoldStep::Get(class, id, owner) => {
            if owner > units {
                return None;
            }
            let holding = Holding {
                born: index,
                class,
                id,
                owner,
            };
            holds.get(holding).ok().map(|_| index)
        }
        HoldStep::Free(unit, class, id) => {
            holds.free(unit, class, id).ok().map(|holding| holding.born)
        }
        HoldStep::Release(born) => {
            holds.release(born);
            None
        }
    }
}

fn births(holds: &Holds) -> [Option<u32>; 4] {
    [Some(0), Some(1), Some(2), None].map(|owner| holds
        .next_release(owner)
        .map(|holding| holding.born))
}

#[test]
fn releases_by_class_and_then_the_newest(rt: HostRuntime) -> Result<(), Fail> {
    let units = 1;
    let mut holds = Holds::of_units(rt.alloc(), units)?;
    // What the step gives, and what the task (0), the master (1), an owner that isn't there, and all of them release
    // next.
    let steps = [
        (
            HoldStep::Get(Res::Timr, 7, 0),
            Some(0),
            [Some(0), None, None, Some(0)],
        ),
        (
            HoldStep::Get(Res::Stor, 7, 1),
            Some(1),
            [Some(0), Some(1), None, Some(1)],
        ),
        (
            HoldStep::Get(Res::Stor, 8, 0),
            Some(2),
            [Some(2), Some(1), None, Some(2)],
        ),
        (
            HoldStep::Get(Res::Stor, 7, 0),
            Some(3),
            [Some(3), Some(1), None, Some(3)],
        ),
        (
            HoldStep::Get(Res::Stor, 7, 0),
            Some(4),
            [Some(4), Some(1), None, Some(4)],
        ),
        // Neither another class nor another owner has it, and the newest of two equal ones goes.
        (
            HoldStep::Free(0, Res::Enq, 7),
            None,
            [Some(4), Some(1), None, Some(4)],
        ),
        (
            HoldStep::Free(1, Res::Stor, 8),
            None,
            [Some(4), Some(1), None, Some(4)],
        ),
        (
            HoldStep::Free(2, Res::Stor, 8),
            None,
            [Some(4), Some(1), None, Some(4)],
        ),
        (
            HoldStep::Free(0, Res::Stor, 7),
            Some(4),
            [Some(3), Some(1), None, Some(3)],
        ),
        (
            HoldStep::Get(Res::Dsn, 0, 1),
            Some(9),
            [Some(3), Some(1), None, Some(3)],
        ),
        // The newest of its class and an older one; a birth that isn't there.
        (
            HoldStep::Release(3),
            None,
            [Some(2), Some(1), None, Some(2)],
        ),
        (
            HoldStep::Get(Res::Stor, 9, 0),
            Some(11),
            [Some(11), Some(1), None, Some(11)],
        ),
        (
            HoldStep::Release(2),
            None,
            [Some(11), Some(1), None, Some(11)],
        ),
        (
            HoldStep::Release(2),
            None,
            [Some(11), Some(1), None, Some(11)],
        ),
        (
            HoldStep::Release(11),
            None,
            [Some(0), Some(1), None, Some(1)],
        ),
        (
            HoldStep::Get(Res::Enq, 999_999, 1),
            Some(15),
            [Some(0), Some(15), None, Some(15)],
        ),
        (
            HoldStep::Release(15),
            None,
            [Some(0), Some(1), None, Some(1)],
        ),
        (
            HoldStep::Release(1),
            None,
            [Some(0), Some(9), None, Some(9)],
        ),
        (
            HoldStep::Free(0, Res::Timr, 7),
            Some(0),
            [None, Some(9), None, Some(9)],
        ),
        (HoldStep::Release(9), None, [None, None, None, None]),
    ];
    for index in 0..20 {
        let (step, given, next) = steps[index];
        assert_eq!(rt;
            hold_step(&mut holds, units, index as u32, step),
            given,
            "at {step:?}"
        );
        assert_eq!(rt; births(&holds), next, "after {step:?}");
    }
    Ok(())
}

#[test]
fn holds_two_hundred_and_fifty_six_of_each_owner(rt: HostRuntime) -> Result<(), Fail> {
    let units = 1;
    let mut holds = Holds::of_units(rt.alloc(), units)?;
    for index in 0..256 {
        assert!(rt; !holds.is_full(0));
        let class = if index % 2 == 0 { Res::Enq } else { Res::Dsn };
        let given = hold_step(&mut holds, units, index, HoldStep::Get(class, 5, 0));
        assert_eq!(rt; given, Some(index));
    }
    assert!(rt; holds.is_full(0) && !holds.is_full(1));
    let given = hold_step(&mut holds, units, 256, HoldStep::Get(Res::Timr, 5, 0));
    assert_eq!(rt; given, None);
    let given = hold_step(&mut holds, units, 257, HoldStep::Get(Res::Timr, 5, 1));
    assert_eq!(rt; given, Some(257));
    assert_eq!(rt; births(&holds), [Some(254), Some(257), None, Some(254)]);
    assert_eq!(rt;
        holds.find(0, Res::Dsn, 5).map(|holding| holding.born),
        Some(255)
    );
    Ok(())
}

fn manager(born: u32, prog: u16, task: Option<u16>) -> Manager1 {
    Manager1 { born, prog, task }
}

#[derive(Clone, Copy, Debug)]
enum ManagerStep {
    Add(u32, u16, Option<u16>),
    Delete(u16, Option<u16>),
    Left(u32),
    DropTask(u16),
}

// Does the step, and tells the birth of the manager that it adds or gives.
fn manager_step(managers: &mut Managers, step: ManagerStep) -> Option<u32> {
    match step {
        ManagerStep::Add(born, prog, task) => {
            managers.add(manager(born, prog, task)).ok().map(|_| born)
        }
        ManagerStep::Delete(prog, task) => managers.delete(prog, task).ok().map(|mgr| mgr.born),
        ManagerStep::Left(born) => {
            managers.left(born);
            None
        }
        ManagerStep::DropTask(task) => {
            managers.drop_task(task);
            None
        }
    }
}

#[test]
fn runs_the_newest_manager_first(rt: HostRuntime) -> Result<(), Fail> {
    let mut managers = Managers::with_room(rt.alloc())?;
    // What the step gives, and which manager of task 0, of task 1 and of the address space is next.
    let steps = [
        (
            ManagerStep::Add(3, 5, Some(0)),
            Some(3),
            [Some(3), None, None],
        ),
        (
            ManagerStep::Add(4, 5, None),
            Some(4),
            [Some(3), None, Some(4)],
        ),
        (
            ManagerStep::Add(6, 5, Some(0)),
            Some(6),
            [Some(6), None, Some(4)],
        ),
        (
            ManagerStep::Add(7, 6, Some(0)),
            Some(7),
            [Some(7), None, Some(4)],
        ),
        (
            ManagerStep::Add(8, 5, Some(1)),
            Some(8),
            [Some(7), Some(8), Some(4)],
        ),
        (
            ManagerStep::Delete(6, Some(1)),
            None,
            [Some(7), Some(8), Some(4)],
        ),
        (
            ManagerStep::Delete(6, None),
            None,
            [Some(7), Some(8), Some(4)],
        ),
        (
            ManagerStep::Delete(5, Some(0)),
            Some(6),
            [Some(7), Some(8), Some(4)],
        ),
        (ManagerStep::Left(7), None, [Some(3), Some(8), Some(4)]),
        (ManagerStep::Left(7), None, [Some(3), Some(8), Some(4)]),
        (ManagerStep::DropTask(1), None, [Some(3), None, Some(4)]),
        (ManagerStep::Delete(5, None), Some(4), [Some(3), None, None]),
    ];
    for (step, given, next) in steps {
        assert_eq!(rt; manager_step(&mut managers, step), given, "at {step:?}");
        let born = [Some(0), Some(1), None].map(|task| managers.next(task).map(|mgr| mgr.born));
        assert_eq!(rt; born, next, "after {step:?}");
    }
    assert_eq!(rt; managers.find(5, Some(0)).map(|mgr| mgr.born), Some(3));
    let there = [3, 4].map(|born| managers.manager_born_at(born).map(|mgr| mgr.prog));
    assert_eq!(rt; there, [Some(5), None]);
    assert_eq!(rt; managers.delete(9, Some(0)), Err(NotFound));
    Ok(())
}

#[test]
fn holds_sixty_four_managers(rt: HostRuntime) -> Result<(), Fail> {
    let mut managers = Managers::with_room(rt.alloc())?;
    for born in 0..64 {
        assert!(rt; !managers.is_full());
        let task = if born % 2 == 0 {
            None
        } else {
            Some(born as u16)
        };
        assert_eq!(rt; managers.add(manager(born, 0, task)), Ok(()));
    }
    assert!(rt; managers.is_full());
    assert_eq!(rt; managers.add(manager(64, 0, None)), Err(Full));
    assert_eq!(rt; managers.next(None).map(|mgr| mgr.born), Some(62));
    Ok(())
}

#[test]
fn ends_in_order(rt: HostRuntime) {
    let mgr = manager(1, 2, None);
    let hold = Holding {
        born: 3,
        class: Res::Enq,
        id: 4,
        owner: 0,
    };
    let acts = [
        (true, Some(mgr), Some(hold), Act::Wait),
        (true, None, None, Act::Wait),
        (false, Some(mgr), Some(hold), Act::Run(mgr)),
        (false, Some(mgr), None, Act::Run(mgr)),
        (false, None, Some(hold), Act::Give(hold)),
        (false, None, None, Act::Finish),
    ];
    for (subtasks_left, mgr, hold, act) in acts {
        assert_eq!(rt; next_act(subtasks_left, mgr, hold), act);
    }
}
