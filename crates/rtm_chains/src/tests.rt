//! The three lists of recovery routines, call by call.

use crate::{EstaeChain, EstaiList, FrrStack, Full, Kind, NotOwned, Reg};
use std::test::Fail;

fn routine(kind: Kind, born: u32, owner: u32, depth: u8) -> Reg {
    Reg {
        kind,
        born,
        owner,
        depth,
        prog: 3,
        term: false,
        cancel: true,
        xctl: false,
    }
}

#[derive(Clone, Copy, Debug)]
enum FrrStep {
    Add(u32, u8),
    Delete(u8),
    Replace(u8, u32),
    Purge(u8),
    Remove(u32),
}

// Does the step, and tells the birth of the routine that it adds or gives.
fn frr_step(stack: &mut FrrStack, step: FrrStep) -> Option<u32> {
    match step {
        FrrStep::Add(born, depth) => {
            let added = stack.add(routine(Kind::Frr, born, 1, depth));
            added.is_ok().then_some(born)
        }
        FrrStep::Delete(depth) => stack.delete(depth).ok().map(|reg| reg.born),
        FrrStep::Replace(depth, born) => {
            let old = stack.replace(depth, routine(Kind::Frr, born, 1, depth));
            old.ok().map(|reg| reg.born)
        }
        FrrStep::Purge(depth) => {
            stack.purge(depth);
            None
        }
        FrrStep::Remove(born) => {
            stack.remove(born);
            None
        }
    }
}

fn births(regs: [Option<Reg>; 2]) -> [Option<u32>; 2] {
    regs.map(|reg| reg.map(|reg| reg.born))
}

#[test]
fn keeps_frrs(rt: HostRuntime) {
    let mut stack = FrrStack::new();
    assert!(rt; !stack.any());
    // After each step: what it gives, and the next FRR of depth 0 and of depth 1.
    let steps = [
        (FrrStep::Delete(0), None, [None, None]),
        (FrrStep::Replace(0, 9), None, [None, None]),
        (FrrStep::Add(10, 0), Some(10), [Some(10), None]),
        (FrrStep::Add(11, 0), Some(11), [Some(11), None]),
        (FrrStep::Add(12, 1), Some(12), [Some(11), Some(12)]),
        (FrrStep::Add(13, 0), Some(13), [Some(13), Some(12)]),
        (FrrStep::Replace(1, 14), Some(12), [Some(13), Some(14)]),
        (FrrStep::Replace(0, 15), Some(13), [Some(15), Some(14)]),
        (FrrStep::Replace(2, 16), None, [Some(15), Some(14)]),
        (FrrStep::Delete(1), Some(14), [Some(15), None]),
        (FrrStep::Delete(1), None, [Some(15), None]),
        (FrrStep::Remove(12), None, [Some(15), None]),
        (FrrStep::Remove(15), None, [Some(11), None]),
        (FrrStep::Add(17, 1), Some(17), [Some(11), Some(17)]),
        (FrrStep::Remove(10), None, [Some(11), Some(17)]),
        (FrrStep::Add(18, 0), Some(18), [Some(18), Some(17)]),
        (FrrStep::Purge(0), None, [None, Some(17)]),
    ];
    for (step, given, next) in steps {
        assert_eq!(rt; frr_step(&mut stack, step), given, "at {step:?}");
        assert_eq!(rt;
            births([stack.next(0), stack.next(1)]),
            next,
            "after {step:?}"
        );
        assert!(rt; stack.any() || next == [None, None], "after {step:?}");
    }
    assert_eq!(rt;
        births([stack.routine_born_at(17), stack.routine_born_at(11)]),
        [Some(17), None]
    );
    stack.purge(1);
    assert!(rt; !stack.any());
    assert_eq!(rt; frr_step(&mut stack, FrrStep::Add(19, 0)), Some(19));
    stack.clear();
    assert!(rt; !stack.any());
}

#[test]
fn holds_sixteen_frrs(rt: HostRuntime) {
    let mut stack = FrrStack::new();
    for born in 0..16 {
        assert!(rt; !stack.is_full());
        assert_eq!(rt; stack.add(routine(Kind::Frr, born, 1, 0)), Ok(()));
    }
    assert!(rt; stack.is_full());
    assert_eq!(rt; stack.add(routine(Kind::Frr, 16, 1, 0)), Err(Full));
    assert_eq!(rt; stack.next(0).map(|reg| reg.born), Some(15));
}

#[derive(Clone, Copy, Debug)]
enum EstaeStep {
    Create(Reg),
    Overlay(u8, u32, u32),
    Cancel(u8, u32),
    DropOwner(u32),
    DropNewerOwners(u32),
    OverXctl(u32),
    DropDepth(u8),
    Remove(u32),
}

fn estae_step(chain: &mut EstaeChain, step: EstaeStep) -> Option<u32> {
    match step {
        EstaeStep::Create(reg) => chain.create(reg).is_ok().then_some(reg.born),
        EstaeStep::Overlay(depth, owner, born) => {
            let old = chain.overlay(depth, owner, routine(Kind::Estae, born, owner, depth));
            old.ok().map(|reg| reg.born)
        }
        EstaeStep::Cancel(depth, owner) => chain.cancel(depth, owner).ok().map(|reg| reg.born),
        EstaeStep::DropOwner(owner) => {
            chain.drop_owner(owner);
            None
        }
        EstaeStep::DropNewerOwners(born) => {
            chain.drop_newer_owners(born);
            None
        }
        EstaeStep::OverXctl(owner) => {
            chain.over_xctl(owner);
            None
        }
        EstaeStep::DropDepth(depth) => {
            chain.drop_depth(depth);
            None
        }
        EstaeStep::Remove(born) => {
            chain.remove(born);
            None
        }
    }
}

#[test]
fn keeps_estaes(rt: HostRuntime) -> Result<(), Fail> {
    let mut chain = EstaeChain::with_room(rt.alloc())?;
    let plain = |born, owner, depth| routine(Kind::Estae, born, owner, depth);
    let term = Reg {
        term: true,
        ..routine(Kind::Estae, 10, 0, 0)
    };
    let xctl = Reg {
        xctl: true,
        ..routine(Kind::Estae, 24, 7, 1)
    };
    // After each step: what it gives, and the next routine of depth 0 and of depth 1.
    let steps = [
        (EstaeStep::Cancel(0, 0), None, [None, None]),
        (EstaeStep::Create(term), Some(10), [Some(10), None]),
        (
            EstaeStep::Create(plain(11, 0, 0)),
            Some(11),
            [Some(11), None],
        ),
        (
            EstaeStep::Create(plain(12, 5, 0)),
            Some(12),
            [Some(12), None],
        ),
        (
            EstaeStep::Create(plain(13, 7, 1)),
            Some(13),
            [Some(12), Some(13)],
        ),
        // Another request block made the newest one, or the bracket has none.
        (EstaeStep::Cancel(0, 0), None, [Some(12), Some(13)]),
        (EstaeStep::Overlay(0, 0, 14), None, [Some(12), Some(13)]),
        (EstaeStep::Overlay(2, 0, 14), None, [Some(12), Some(13)]),
        (EstaeStep::Overlay(0, 5, 15), Some(12), [Some(15), Some(13)]),
        (EstaeStep::Cancel(1, 7), Some(13), [Some(15), None]),
        (EstaeStep::DropOwner(5), None, [Some(11), None]),
        (EstaeStep::Overlay(0, 0, 16), Some(11), [Some(16), None]),
        (EstaeStep::Create(xctl), Some(24), [Some(16), Some(24)]),
        (
            EstaeStep::Create(plain(25, 7, 1)),
            Some(25),
            [Some(16), Some(25)],
        ),
        (EstaeStep::OverXctl(7), None, [Some(16), Some(24)]),
        // A retry under the request block 7, which is one older than 8.
        (
            EstaeStep::Create(plain(27, 8, 0)),
            Some(27),
            [Some(27), Some(24)],
        ),
        (EstaeStep::DropNewerOwners(7), None, [Some(16), Some(24)]),
        (EstaeStep::Remove(25), None, [Some(16), Some(24)]),
        (EstaeStep::Remove(16), None, [Some(10), Some(24)]),
        (EstaeStep::DropDepth(1), None, [Some(10), None]),
        (
            EstaeStep::Create(plain(26, 0, 0)),
            Some(26),
            [Some(26), None],
        ),
    ];
    for (step, given, next) in steps {
        assert_eq!(rt; estae_step(&mut chain, step), given, "at {step:?}");
        assert_eq!(rt;
            births([chain.next(0, false), chain.next(1, false)]),
            next,
            "after {step:?}"
        );
    }
    // With TERM=YES alone.
    assert_eq!(rt;
        births([chain.next(0, true), chain.next(1, true)]),
        [Some(10), None]
    );
    assert_eq!(rt; chain.cancel(0, 1).err(), Some(NotOwned));
    assert_eq!(rt;
        births([chain.newest_owned(0, 0), chain.newest_owned(0, 1)]),
        [Some(26), None]
    );
    assert_eq!(rt;
        births([chain.routine_born_at(10), chain.routine_born_at(24)]),
        [Some(10), None]
    );
    chain.clear();
    assert!(rt; chain.next(0, false).is_none());
    Ok(())
}

#[test]
fn holds_sixty_four_estaes(rt: HostRuntime) -> Result<(), Fail> {
    let mut chain = EstaeChain::with_room(rt.alloc())?;
    for born in 0..64 {
        assert!(rt; !chain.is_full());
        assert_eq!(rt; chain.create(routine(Kind::Estae, born, 0, 0)), Ok(()));
    }
    assert!(rt; chain.is_full());
    assert_eq!(rt; chain.create(routine(Kind::Estae, 64, 0, 0)), Err(Full));
    assert_eq!(rt; chain.next(0, false).map(|reg| reg.born), Some(63));
    Ok(())
}

#[test]
fn inherits_sixty_three_estais(rt: HostRuntime) -> Result<(), Fail> {
    let mut mother = EstaiList::with_room(rt.alloc())?;
    for born in 0..63 {
        let own = Reg {
            term: born == 40,
            ..routine(Kind::Estai, born, 0, 0)
        };
        let mut task = EstaiList::with_room(rt.alloc())?;
        task.inherit(&mother, Some(own));
        mother = task;
    }
    let mut task = EstaiList::with_room(rt.alloc())?;
    assert_eq!(rt; births([task.next(false), task.next(true)]), [None, None]);
    task.inherit(&mother, None);
    // What leaves the subtask stays with its mother.
    let nearest = [(62, 61), (60, 61), (61, 59), (99, 59)];
    for (born, next) in nearest {
        task.left(born);
        assert_eq!(rt;
            births([task.next(false), task.next(true)]),
            [Some(next), Some(40)]
        );
        assert_eq!(rt;
            births([task.routine_born_at(born), task.routine_born_at(next)]),
            [None, Some(next)]
        );
    }
    assert_eq!(rt;
        births([mother.next(false), mother.next(true)]),
        [Some(62), Some(40)]
    );
    mother.stop();
    assert_eq!(rt;
        births([mother.next(false), mother.next(true)]),
        [None, None]
    );
    Ok(())
}
