//! A unit's worker.

use crate::gate::Gate;
use crate::pause::Pause;
use crate::running::{Running, Turn};
use rtm_deck_items::Deck;
use rtm_desk::Manager;
use rtm_lock::Lock;
use rtm_model::{Entry, What};
use std::snapshot::Snapshot;
use std::sync::Wait;

/// The lock round a region that runs.
pub(crate) type RegionLock<M> = Lock<Running<M>, Snapshot<Deck>>;

/// One hold of the lock: at most one entry is made, of the unit of that number.
pub(crate) fn turn<M: Manager, R: Wait>(rt: &R, lock: &RegionLock<M>, unit: u16) -> Turn {
    let (mut running, hold) = lock.take(rt);
    let turn = running.step(unit);
    lock.put_back(running, hold, matches!(turn, Turn::Made(_, _)));
    turn
}

// Whether the entry ends its unit.
fn is_last(entry: &Entry) -> bool {
    matches!(entry.what, What::Done { .. })
}

/// What a worker does: it passes the gate, and makes the entries of its unit, one in each hold of the lock, until the
/// unit or the region ends.
pub(crate) fn work<M: Manager, G: Gate, R: Wait>(
    rt: &R,
    lock: &RegionLock<M>,
    gate: &G,
    unit: u16,
) {
    gate.pass(unit);
    let mut pause = Pause::new();
    for _ in rt.forever() {
        let changes = lock.changes();
        match turn::<M, R>(rt, lock, unit) {
            Turn::Made(index, entry) => {
                gate.made(index, &entry);
                if is_last(&entry) {
                    return;
                }
                pause = Pause::new();
            }
            Turn::Waits => pause.wait(rt, lock, changes),
            Turn::Ends => return,
        }
    }
    unreachable!()
}
