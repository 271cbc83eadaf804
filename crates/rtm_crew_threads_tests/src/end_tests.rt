//! Runs of one unit, which have one history; runs that stall or come to their limit; and want of memory.

ghost use Rattle.std.specs.Prelude.{◌≡◌, IfOk, []};
ghost use Rattle.rtm_desk.specs.Told.{told_by, told_to};

use crate::decks::{managers, run};
use rtm_codes::NoMemory;
use rtm_crew::{Region, run_with};
use rtm_crew_threads::{EachStarts, OpenGate, drive};
use rtm_deck::read_deck;
use rtm_desk::{Manager, MemManager};
use rtm_model::{End, Res};
use std::alloc::{AllocError, Global};
use std::test::Fail;

// A retry after an error.
const ONE: &[u8] = b"MAIN PROG
 ESTAEX CT,PGM=REC
 ABEND S0C4
AGAIN RETURN
 PEND
REC PROG
 SETRP RC=4,RETADDR=AGAIN
 PEND
JOB TASK PGM=MAIN
 END
";

// An event that nobody posts.
const WAITS: &[u8] = b"MAIN PROG
 ATTACHX A
 WAIT 1
 PEND
JOB TASK PGM=MAIN
A TASK PGM=MAIN
 END
";

// Two units that never end.
const LOOPS: &[u8] = b" REGION LIMIT=300
MAIN PROG
 ATTACHX A
AGAIN B AGAIN
 PEND
LOOP PROG
AGAIN B AGAIN
 PEND
JOB TASK PGM=MAIN
A TASK PGM=LOOP
 END
";

// The run on one thread. None where there is no memory, or the text is no deck.
fn run_in_turns(alloc: Global, text: &[u8]) -> Option<(Region<MemManager>, End)> {
    let deck = read_deck(alloc, text).ok()?;
    let managers = managers(alloc).ok()?;
    run_with::<MemManager>(alloc, deck, managers).ok()
}

#[test]
fn one_unit_has_one_history(rt: HostRuntime) -> Result<(), Fail> {
    let alloc = rt.alloc();
    match run(&rt, alloc, ONE, &OpenGate, &EachStarts) {
        Some((region, end)) => match run_in_turns(alloc, ONE) {
            Some((in_turns, end_in_turns)) => {
                assert_eq!(rt; region.system().trace(), in_turns.system().trace());
                assert!(rt; matches!((end, end_in_turns), (End::Ended, End::Ended)));
            }
            None => assert!(rt; false),
        },
        None => assert!(rt; false),
    }
    Ok(())
}

#[test]
fn a_run_stalls(rt: HostRuntime) -> Result<(), Fail> {
    match run(&rt, rt.alloc(), WAITS, &OpenGate, &EachStarts) {
        Some((region, end)) => {
            assert!(rt; matches!(end, End::Stalled));
            assert!(rt; !region.system().trace().is_empty());
        }
        None => assert!(rt; false),
    }
    Ok(())
}

#[test]
fn a_run_comes_to_its_limit(rt: HostRuntime) -> Result<(), Fail> {
    match run(&rt, rt.alloc(), LOOPS, &OpenGate, &EachStarts) {
        Some((region, end)) => {
            assert!(rt; matches!(end, End::Limit));
            assert_eq!(rt; region.system().trace().len(), 300);
        }
        None => assert!(rt; false),
    }
    Ok(())
}

// Is refused memory each time.
#[derive(Drop)]
struct Poor(MemManager);

impl Manager for Poor {
    ghost class = { λ a. a.0.class };

    ghost released = { λ a. a.0.released };

    ghost spare = { λ a. a.0.spare };

    fn reserve(&mut self, _n: u64) -> Result<(), NoMemory> {
        Err(NoMemory)
    }

    fn release(&mut self, unit: u16, id: u32) {
        self.0.release(unit, id);
    }

    fn count(&self) -> u64 {
        self.0.count()
    }
}

fn poor_managers(alloc: Global) -> Result<Vec<Poor>, AllocError>
    ensures { IfOk result
        (λ ms. told_to (λ m. m.0.class) (λ m. m.0.released) ms.items ≡ told_by []) }
{
    let managers = vec![in alloc;
        Poor(MemManager::new(alloc, Res::Enq)),
        Poor(MemManager::new(alloc, Res::Stor)),
        Poor(MemManager::new(alloc, Res::Dsn)),
        Poor(MemManager::new(alloc, Res::Timr)),
    ]?;
    Ok(managers)
}

#[test]
fn the_managers_come_back(rt: HostRuntime) -> Result<(), Fail> {
    let alloc = rt.alloc();
    let managers = poor_managers(alloc)?;
    match read_deck(alloc, ONE) {
        Ok(deck) => match drive(&rt, alloc, deck, managers, &OpenGate) {
            Ok(_) => assert!(rt; false),
            Err(no_run) => {
                assert_eq!(rt; no_run.managers.len(), 4);
                for manager in &no_run.managers {
                    assert_eq!(rt; manager.count(), 0);
                }
            }
        },
        Err(_) => assert!(rt; false),
    }
    Ok(())
}
