//! Managers of several kinds at the desks, in boxes and without.

ghost use Rattle.std.specs.Prelude.{◌≡◌, IfOk, map};
ghost use Rattle.rtm_desk.specs.Told.{classes};

use super::*;
use rtm_codes::NoMemory;
use rtm_model::Res;
use std::alloc::{AllocError, Global};
use std::process::Abort;
use std::sync::Arc;
use std::sync::atomic::{AtomicU64, Ordering};
use std::test::Fail;

// The releases of a run that memory end closes: the class, the unit that held the resource, and its number.
const RELEASES: [(Res, u16, u32); 5] = [
    (Res::Enq, 1, 2),
    (Res::Enq, 1, 2),
    (Res::Enq, 0, 1),
    (Res::Stor, 1, 5),
    (Res::Dsn, 0, 7),
];

// Tells the managers of each release, where each has taken memory for all of them; gives them back.
fn tell_all<M: Manager>(managers: Vec<M>) -> (bool, Vec<M>)
    requires { map (λ m. M.class m) managers.items ≡ classes }
{
    let mut desks = Desks::<M>::over(managers);
    match desks.reserve_all(1) {
        Ok(()) => {}
        Err(NoMemory) => return (false, desks.into_managers()),
    }
    for (class, unit, id) in RELEASES {
        match desks.reserve_all(1) {
            Ok(()) => desks.release(class, unit, id),
            Err(NoMemory) => return (false, desks.into_managers()),
        }
    }
    (true, desks.into_managers())
}

#[test]
fn each_manager_is_told_of_its_class(rt: HostRuntime) -> Result<(), Fail> {
    let alloc = rt.alloc();
    let managers = vec![in alloc;
        MemManager::new(alloc, Res::Enq),
        MemManager::new(alloc, Res::Stor),
        MemManager::new(alloc, Res::Dsn),
        MemManager::new(alloc, Res::Timr),
    ]?;
    let (told, managers) = tell_all::<MemManager>(managers);
    assert!(rt; told);
    assert_eq!(rt; managers.len(), 4);
    let lists: [&[(u16, u32)]; 4] = [&[(1, 2), (1, 2), (0, 1)], &[(1, 5)], &[(0, 7)], &[]];
    for (manager, list) in managers.iter().zip(lists) {
        assert_eq!(rt; manager.released(), list);
        assert_eq!(rt; manager.count(), list.len() as u64);
    }
    Ok(())
}

// Is refused memory each time.
#[derive(Drop)]
struct Refused(MemManager);

impl Manager for Refused {
    ghost class = { λ a. a.0.class };

    ghost released = { λ a. a.0.released };

    ghost spare = { λ a. a.0.spare };

    fn reserve(&mut self, _n: u64) -> Result<(), NoMemory> {
        Err(NoMemory)
    }

    fn release(&mut self, unit: u16, id: u32) {
        self.0.release(unit, id);
    }

    fn count(&self) -> u64 {
        self.0.count()
    }
}

#[test]
fn a_refusal_is_told_and_nothing_else(rt: HostRuntime) -> Result<(), Fail> {
    let alloc = rt.alloc();
    let mut managers: Vec<Box<dyn Manager + Send>> = Vec::new(alloc);
    managers.push(Box::new(alloc, MemManager::new(alloc, Res::Enq))?)?;
    managers.push(Box::new(alloc, MemManager::new(alloc, Res::Stor))?)?;
    managers.push(Box::new(alloc, Refused(MemManager::new(alloc, Res::Dsn)))?)?;
    managers.push(Box::new(alloc, MemManager::new(alloc, Res::Timr))?)?;
    let (told, managers) = tell_all::<Box<dyn Manager + Send>>(managers);
    assert!(rt; !told);
    assert_eq!(rt; managers.len(), 4);
    for manager in &managers {
        assert_eq!(rt; manager.count(), 0);
    }
    Ok(())
}

// Takes more memory than it is asked to.
#[derive(Drop)]
struct Ample(MemManager);

impl Manager for Ample {
    ghost class = { λ a. a.0.class };

    ghost released = { λ a. a.0.released };

    ghost spare = { λ a. a.0.spare };

    fn reserve(&mut self, n: u64) -> Result<(), NoMemory> {
        self.0.reserve(n.saturating_add(9))
    }

    fn release(&mut self, unit: u16, id: u32) {
        self.0.release(unit, id);
    }

    fn count(&self) -> u64 {
        self.0.count()
    }
}

#[test]
fn boxes_with_more_room_than_asked(rt: HostRuntime) -> Result<(), Fail> {
    let alloc = rt.alloc();
    let mut managers: Vec<Box<dyn Manager + Send>> = Vec::new(alloc);
    managers.push(Box::new(alloc, Ample(MemManager::new(alloc, Res::Enq)))?)?;
    managers.push(Box::new(alloc, MemManager::new(alloc, Res::Stor))?)?;
    managers.push(Box::new(alloc, Ample(MemManager::new(alloc, Res::Dsn)))?)?;
    managers.push(Box::new(alloc, Ample(MemManager::new(alloc, Res::Timr)))?)?;
    let (told, managers) = tell_all::<Box<dyn Manager + Send>>(managers);
    assert!(rt; told);
    for (manager, count) in managers.iter().zip([3, 1, 1, 0]) {
        assert_eq!(rt; manager.count(), count);
    }
    Ok(())
}

// Counts how many of its kind were dropped.
struct Counted {
    manager: MemManager,
    drops: Arc<AtomicU64>,
}

impl Drop for Counted {
    fn drop(self) {
        let Self { manager: _, drops } = self;
        drops.fetch_add(1, Ordering::SeqCst);
    }
}

impl Manager for Counted {
    ghost class = { λ a. a.manager.class };

    ghost released = { λ a. a.manager.released };

    ghost spare = { λ a. a.manager.spare };

    fn reserve(&mut self, n: u64) -> Result<(), NoMemory> {
        self.manager.reserve(n)
    }

    fn release(&mut self, unit: u16, id: u32) {
        self.manager.release(unit, id);
    }

    fn count(&self) -> u64 {
        self.manager.count()
    }
}

fn counting(alloc: Global, class: Res, drops: &Arc<AtomicU64>) -> Result<Counted, AllocError>
    ensures { IfOk result (λ a. a.manager.class ≡ class) }
{
    let drops = drops.clone()?;
    let manager = MemManager::new(alloc, class);
    Ok(Counted { manager, drops })
}

#[test]
fn each_box_is_dropped_once(rt: HostRuntime) -> Result<(), Fail> {
    let alloc = rt.alloc();
    let drops = Arc::new(alloc, AtomicU64::new(0))?;
    let mut managers: Vec<Box<dyn Manager + Send>> = Vec::new(alloc);
    managers.push(Box::new(alloc, counting(alloc, Res::Enq, &drops)?)?)?;
    managers.push(Box::new(alloc, counting(alloc, Res::Stor, &drops)?)?)?;
    managers.push(Box::new(alloc, counting(alloc, Res::Dsn, &drops)?)?)?;
    managers.push(Box::new(alloc, counting(alloc, Res::Timr, &drops)?)?)?;
    let (told, managers) = tell_all::<Box<dyn Manager + Send>>(managers);
    assert!(rt; told);
    assert_eq!(rt; drops.load(Ordering::SeqCst), 0);
    for (manager, count) in managers.iter().zip([3, 1, 1, 0]) {
        assert_eq!(rt; manager.count(), count);
    }
    drop(managers);
    assert_eq!(rt; drops.load(Ordering::SeqCst), 4);
    Ok(())
}
