//! The system starts no worker, some, or all but the last: the caller makes the entries of the others' units.

use crate::decks::{BATCH, are_told, is_verified, run};
use crate::record::Record;
use rtm_crew_threads::{Gate, Starts};
use rtm_model::{End, Entry};
use std::process::Abort;
use std::sync::Wait;
use std::sync::atomic::{AtomicU64, Ordering};
use std::test::Fail;
use std::thread::Threads;

// Counts who passes it, and notes what is made.
#[derive(Drop)]
struct Counting {
    passes: AtomicU64,
    record: Record,
}

impl Gate for Counting {
    fn pass(&self, unit: u16) {
        // A digit for each of the four units.
        let one = match unit {
            0 => 1,
            1 => 10,
            2 => 100,
            3 => 1000,
            _ => 10000,
        };
        self.passes.fetch_add(one, Ordering::SeqCst);
    }

    fn made(&self, index: u32, entry: &Entry) {
        self.record.note(index, entry);
    }
}

// Refuses each.
struct Nobody;

impl Starts for Nobody {
    fn may_start(&self, _unit: u16) -> bool {
        false
    }
}

// Refuses every second one.
struct EverySecond;

impl Starts for EverySecond {
    fn may_start(&self, unit: u16) -> bool {
        unit % 2 == 0
    }
}

// Refuses the last one.
struct AllButLast;

impl Starts for AllButLast {
    fn may_start(&self, unit: u16) -> bool {
        unit < 3
    }
}

fn check<S: Starts>(
    rt: &(impl Abort + AllocGlobal + Threads + Wait + Sync),
    starts: &S,
) -> Result<(), Fail> {
    let alloc = rt.alloc();
    let gate = Counting {
        passes: AtomicU64::new(0),
        record: Record::new(alloc)?,
    };
    match run(rt, alloc, BATCH, &gate, starts) {
        Some((region, end)) => {
            assert_eq!(rt; gate.passes.load(Ordering::SeqCst), 1111);
            assert!(rt; gate.record.is_of(region.system().trace()));
            assert!(rt; matches!(end, End::Ended));
            assert!(rt; is_verified(alloc, BATCH, &region, end));
            assert!(rt; are_told(region));
        }
        None => assert!(rt; false),
    }
    Ok(())
}

#[test]
fn all_refused(rt: HostRuntime) -> Result<(), Fail> {
    check(&rt, &Nobody)
}

#[test]
fn every_second_refused(rt: HostRuntime) -> Result<(), Fail> {
    check(&rt, &EverySecond)
}

#[test]
fn the_last_refused(rt: HostRuntime) -> Result<(), Fail> {
    check(&rt, &AllButLast)
}
