//! How long a thread waits that finds nothing to do.

use rtm_lock::{Keyed, Lock};
use std::sync::Wait;
use std::thread::yield_now;
use std::time::Duration;

// How often it lets others go first before it sleeps.
const YIELDS: u32 = 32;

// How long it sleeps at first and at most, in microseconds.
const SHORTEST: u64 = 50;

const LONGEST: u64 = 1600;

/// The waits of a thread since it last made an entry: it lets others go first, then sleeps, twice as long each time.
#[derive(Drop)]
pub(crate) struct Pause {
    yields: u32,
    micros: u64,
}

impl Pause {
    pub(crate) fn new() -> Pause {
        Pause {
            yields: 0,
            micros: SHORTEST,
        }
    }

    /// Waits, where nothing was changed since the lock had counted that many changes.
    pub(crate) fn wait<T: Keyed<K> + Drop, K, R: Wait>(
        &mut self,
        rt: &R,
        lock: &Lock<T, K>,
        changes: u32,
    ) {
        if self.yields < YIELDS {
            self.yields += 1;
            yield_now();
            return;
        }
        lock.sleep_unless_changed::<R>(rt, changes, Duration::from_micros(self.micros));
        self.micros = self.micros.saturating_mul(2).min(LONGEST);
    }
}
