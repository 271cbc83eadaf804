//! What the caller does while the workers run.

use crate::gate::Gate;
use crate::pause::Pause;
use crate::running::Turn;
use crate::worker::{RegionLock, turn};
use rtm_desk::Manager;
use std::sync::Wait;

/// More units than a deck may have.
pub(crate) const UNITS: usize = 65;

/// The units whose workers weren't started, by their numbers.
pub(crate) type Refused = [bool; UNITS];

// One hold of the lock: at most one entry is made, the arrival of a command or the master's.
fn master_turn<M: Manager, R: Wait>(rt: &R, lock: &RegionLock<M>) -> Turn {
    let (mut running, hold) = lock.take(rt);
    let turn = running.step_master();
    lock.put_back(running, hold, matches!(turn, Turn::Made(_, _)));
    turn
}

// Tells the gate of an entry, and says whether there was one.
fn tell<G: Gate>(gate: &G, turn: Turn) -> bool {
    match turn {
        Turn::Made(index, entry) => {
            gate.made(index, &entry);
            true
        }
        Turn::Waits | Turn::Ends => false,
    }
}

// One round: at most one entry of each unit without a worker, and one of the master's or an arrival. None where the
// region ends, else whether an entry was made.
fn round<M: Manager, G: Gate, R: Wait>(
    rt: &R,
    lock: &RegionLock<M>,
    gate: &G,
    refused: &Refused,
) -> Option<bool> {
    let mut made = false;
    for unit in 0..UNITS {
        if refused[unit] {
            let turned = turn::<M, R>(rt, lock, unit as u16);
            made |= tell::<G>(gate, turned);
        }
    }
    let turned = master_turn::<M, R>(rt, lock);
    if matches!(turned, Turn::Ends) {
        return None;
    }
    made |= tell::<G>(gate, turned);
    Some(made)
}

/// What the caller does while the workers run: it passes the gate for each unit without a worker, and then makes their
/// entries, the master's and the arrivals of commands in rounds, until the region ends.
pub(crate) fn attend<M: Manager, G: Gate, R: Wait>(
    rt: &R,
    lock: &RegionLock<M>,
    gate: &G,
    refused: &Refused,
) {
    for unit in 0..UNITS {
        if refused[unit] {
            gate.pass(unit as u16);
        }
    }
    let mut pause = Pause::new();
    for _ in rt.forever() {
        let changes = lock.changes();
        match round::<M, G, R>(rt, lock, gate, refused) {
            Some(true) => pause = Pause::new(),
            Some(false) => pause.wait(rt, lock, changes),
            None => return,
        }
    }
    unreachable!()
}
