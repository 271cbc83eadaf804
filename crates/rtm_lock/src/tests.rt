//! Two threads and one lock.

ghost use Rattle.std.specs.Prelude.{◌≡◌};

use super::*;
use std::sync::Wait;
use std::test::Fail;
use std::thread;
use std::thread::Threads;

const TURNS: u64 = 1000;

// A number that only grows, under the name of its owner.
#[derive(Drop)]
struct Total {
    owner: u8,
    sum: u64,
}

impl Keyed<u8> for Total {
    ghost belongs = { λ owner total. total.owner ≡ owner };
}

fn add<R: Wait>(rt: &R, lock: &Lock<Total, u8>) {
    for _ in 0..TURNS {
        let (mut total, hold) = lock.take(rt);
        total.sum = total.sum.wrapping_add(1);
        lock.put_back(total, hold, true);
    }
}

fn add_beside<R: Threads + Wait + Sync>(rt: &R, lock: &Lock<Total, u8>) {
    thread::join(rt, || add(rt, lock), || add(rt, lock));
}

#[test]
fn each_of_two_threads_adds(rt: HostRuntime) -> Result<(), Fail> {
    let total = Total { owner: 7, sum: 0 };
    match Lock::new(rt.alloc(), total, &7) {
        Ok(lock) => {
            add_beside(&rt, &lock);
            assert_eq!(rt; lock.changes(), 2000);
            let total = lock.into_value(&rt);
            assert_eq!(rt; total.owner, 7);
            assert_eq!(rt; total.sum, 2 * TURNS);
        }
        Err(_) => assert!(rt; false),
    }
    Ok(())
}
