//! A run on threads.

ghost use Rattle.std.specs.Prelude.{◌≡◌, IfErr, IfOk, Some, []};
ghost use Rattle.rtm_desk.specs.Told.{told_by, told_to};
ghost use Rattle.rtm_model.specs.Legal.{Legal, end_of};

use crate::attending::{Refused, UNITS, attend};
use crate::finishing::finish;
use crate::gate::Gate;
use crate::running::Running;
use crate::starts::{EachStarts, Starts};
use crate::worker::{RegionLock, work};
use rtm_crew::{NoRun, Region, make_ready};
use rtm_deck_items::Deck;
use rtm_desk::Manager;
use rtm_lock::Lock;
use rtm_model::End;
use std::alloc::Global;
use std::snapshot::Snapshot;
use std::sync::Wait;
use std::thread;
use std::thread::Threads;

// Starts a worker for each unit, does the rest beside them, and waits for them all.
fn run_workers<M: Manager + Send, G: Gate, S: Starts, R: Threads + Wait + Sync>(
    rt: &R,
    lock: &RegionLock<M>,
    gate: &G,
    starts: &S,
    units: u16,
) {
    thread::scope(thread::scope_env(), rt, |scope| {
        let mut refused: Refused = [false; UNITS];
        for unit in 0..units {
            if !starts.may_start(unit) || scope.spawn(move || work(rt, lock, gate, unit)).is_err() {
                if let Some(is_refused) = refused.get_mut(unit as usize) {
                    *is_refused = true;
                }
            }
        }
        attend(rt, lock, gate, &refused);
    });
}

/// As `drive`, with a start of workers that can refuse.
pub fn drive_by<M: Manager + Send, G: Gate, S: Starts, R: Threads + Wait + Sync>(
    rt: &R,
    alloc: Global,
    deck: Deck,
    managers: Vec<M>,
    gate: &G,
    starts: &S,
) -> Result<(Region<M>, End), NoRun<M>>
    requires { told_to M.class M.released managers.items ≡ told_by [] }
    ensures deck { IfOk result (λ run. run.0.system.deck ≡ deck) }
    ensures legal { IfOk result (λ run. Legal deck run.0.system.trace) }
    ensures end { IfOk result (λ run. end_of deck run.0.system.trace ≡ Some run.1) }
    ensures told { IfOk result (λ run. run.0.desks.told ≡ told_by run.0.system.trace) }
    ensures refused { IfErr result (λ no_run.
        told_to M.class M.released no_run.managers.items ≡ told_by []) }
{
    let units = deck.unit_count();
    match make_ready::<M>(alloc, deck, managers) {
        Ok((region, notes)) => {
            let deck = Snapshot::of(region.system().deck());
            match Lock::new(alloc, Running { region, notes }, &deck) {
                Ok(lock) => {
                    run_workers::<M, G, S, R>(rt, &lock, gate, starts, units);
                    let Running {
                        mut region,
                        mut notes,
                    } = lock.into_value(rt);
                    let end = finish::<M, G>(&mut region, &mut notes, gate);
                    region.system().trace();
                    region.managers_are_told();
                    Ok((region, end))
                }
                Err(running) => {
                    let Running { region, notes: _ } = running;
                    let (_, managers) = region.into_parts();
                    Err(NoRun { managers })
                }
            }
        }
        Err(no_run) => Err(no_run),
    }
}

/// Runs the deck to its end on threads, a worker for each unit, and tells these managers of its releases. There are
/// four of them, in the order of the classes, ENQ, STOR, DSN, TIMR, and they were told nothing yet. All memory is
/// taken before the first entry is made; where there is none the managers come back, and were told nothing. Where the
/// system doesn't start a worker, its unit's entries are made by the caller. Answers the region as the run has left
/// it, and how its history ends: it is one of those that the machine may make, and not always the same.
pub fn drive<M: Manager + Send, G: Gate, R: Threads + Wait + Sync>(
    rt: &R,
    alloc: Global,
    deck: Deck,
    managers: Vec<M>,
    gate: &G,
) -> Result<(Region<M>, End), NoRun<M>>
    requires { told_to M.class M.released managers.items ≡ told_by [] }
    ensures deck { IfOk result (λ run. run.0.system.deck ≡ deck) }
    ensures legal { IfOk result (λ run. Legal deck run.0.system.trace) }
    ensures end { IfOk result (λ run. end_of deck run.0.system.trace ≡ Some run.1) }
    ensures told { IfOk result (λ run. run.0.desks.told ≡ told_by run.0.system.trace) }
    ensures refused { IfErr result (λ no_run.
        told_to M.class M.released no_run.managers.items ≡ told_by []) }
{
    drive_by::<M, G, EachStarts, R>(rt, alloc, deck, managers, gate, &EachStarts)
}
