//! What the managers that are handed in were told, under each word and after each status.

ghost use Rattle.std.specs.Prelude.{◌≡◌, IfOk};
ghost use Rattle.rtm_desk.specs.MemManager.{manager_of};

use crate::program_tests::{ROW_1, TRACE_1, words};
use crate::run_tests::endings::MEMTERM;
use rtm_codes::NoMemory;
use rtm_desk::{Manager, MemManager};
use rtm_io::{MemSink, MemSource};
use rtm_model::Res;
use rtm_top::{Outcome, Status, plain_words};
use std::alloc::{AllocError, Global};
use std::process::Abort;
use std::sync::Arc;
use std::sync::atomic::{AtomicU64, Ordering};
use std::test::Fail;

// How much memory a manager takes where it is to reserve some.
#[derive(Clone, Copy)]
enum Room {
    AsAsked,
    More,
    Refused,
}

// Counts how many of its kind were dropped.
struct Watched {
    manager: MemManager,
    room: Room,
    drops: Arc<AtomicU64>,
}

impl Drop for Watched {
    fn drop(self) {
        let Self {
            manager: _,
            room: _,
            drops,
        } = self;
        drops.fetch_add(1, Ordering::SeqCst);
    }
}

impl Manager for Watched {
    ghost class = { λ a. a.manager.class };

    ghost released = { λ a. a.manager.released };

    ghost spare = { λ a. a.manager.spare };

    fn reserve(&mut self, n: u64) -> Result<(), NoMemory> {
        match self.room {
            Room::AsAsked => self.manager.reserve(n),
            Room::More => self.manager.reserve(n.saturating_add(9)),
            Room::Refused => Err(NoMemory),
        }
    }

    fn release(&mut self, unit: u16, id: u32) {
        self.manager.release(unit, id);
    }

    fn count(&self) -> u64 {
        self.manager.count()
    }
}

fn watching(
    alloc: Global,
    class: Res,
    room: Room,
    drops: &Arc<AtomicU64>,
) -> Result<Watched, AllocError>
    ensures { IfOk result (λ a. a.manager ≡ manager_of class) }
{
    let drops = drops.clone()?;
    let manager = MemManager::new(alloc, class);
    Ok(Watched {
        manager,
        room,
        drops,
    })
}

// Calls the program with four such managers, of which the third takes memory so.
fn called(
    alloc: Global,
    list: &[&str],
    src: &mut MemSource,
    out: &mut MemSink,
    room: Room,
    drops: &Arc<AtomicU64>,
) -> Result<Outcome, AllocError> {
    let words = words(alloc, list)?;
    let mut managers: Vec<Box<dyn Manager + Send>> = Vec::new(alloc);
    managers.push(Box::new(alloc, watching(alloc, Res::Enq, Room::AsAsked, drops)?)?)?;
    managers.push(Box::new(alloc, watching(alloc, Res::Stor, Room::AsAsked, drops)?)?)?;
    managers.push(Box::new(alloc, watching(alloc, Res::Dsn, room, drops)?)?)?;
    managers.push(Box::new(alloc, watching(alloc, Res::Timr, Room::AsAsked, drops)?)?)?;
    Ok(plain_words(alloc, &words, src, out, managers))
}

// The timer of A is released as A ends, and its mother waits for ever.
const STALLS: &str = "MAIN PROG
 GET ENQ,1
 ATTACHX A
 WAIT 1
 PEND
PA PROG
 GET TIMR,4
 PEND
JOB TASK PGM=MAIN
A TASK PGM=PA
 END
";

// The run of MEMTERM is cut behind the second of its five releases.
const CUT: &str = " REGION LIMIT=16\n";

struct Case {
    name: &'static str,
    words: &'static [&'static str],
    input: &'static [&'static str],
    // the calls of the source and those of the sink that fail
    fails: (&'static [u32], &'static [u32]),
    room: Room,
    status: Status,
    // how many releases the managers were told of: ENQ, STOR, DSN, TIMR
    counts: [u64; 4],
}

static CASES: [Case; 12] = [
    Case {
        name: "a run to its end",
        words: &["seq"],
        input: &[MEMTERM],
        fails: (&[], &[]),
        room: Room::AsAsked,
        status: Status::Fine,
        counts: [3, 1, 1, 0],
    },
    Case {
        name: "a manager that takes more memory than asked",
        words: &["seq"],
        input: &[MEMTERM],
        fails: (&[], &[]),
        room: Room::More,
        status: Status::Fine,
        counts: [3, 1, 1, 0],
    },
    Case {
        name: "a run up to the limit of entries",
        words: &["seq"],
        input: &[CUT, MEMTERM],
        fails: (&[], &[]),
        room: Room::AsAsked,
        status: Status::AtLimit,
        counts: [2, 0, 0, 0],
    },
    Case {
        name: "a run that stalls",
        words: &["seq"],
        input: &[STALLS],
        fails: (&[], &[]),
        room: Room::AsAsked,
        status: Status::Stalled,
        counts: [0, 0, 0, 1],
    },
    Case {
        name: "a sink that fails",
        words: &["seq"],
        input: &[MEMTERM],
        fails: (&[], &[0]),
        room: Room::AsAsked,
        status: Status::Write,
        counts: [3, 1, 1, 0],
    },
    Case {
        name: "a source that fails",
        words: &["seq"],
        input: &[MEMTERM],
        fails: (&[0], &[]),
        room: Room::AsAsked,
        status: Status::Read,
        counts: [0, 0, 0, 0],
    },
    Case {
        name: "a manager that is refused memory",
        words: &["seq"],
        input: &[MEMTERM],
        fails: (&[], &[]),
        room: Room::Refused,
        status: Status::Memory,
        counts: [0, 0, 0, 0],
    },
    Case {
        name: "a deck that is refused",
        words: &["seq"],
        input: &[],
        fails: (&[], &[]),
        room: Room::AsAsked,
        status: Status::Deck,
        counts: [0, 0, 0, 0],
    },
    Case {
        name: "a scan",
        words: &["scan"],
        input: &[MEMTERM],
        fails: (&[], &[]),
        room: Room::AsAsked,
        status: Status::Fine,
        counts: [0, 0, 0, 0],
    },
    Case {
        name: "a trace that is verified",
        words: &["verify"],
        input: &[ROW_1, TRACE_1],
        fails: (&[], &[]),
        room: Room::AsAsked,
        status: Status::Fine,
        counts: [0, 0, 0, 0],
    },
    Case {
        name: "a load",
        words: &["load", "1"],
        input: &[],
        fails: (&[0], &[]),
        room: Room::AsAsked,
        status: Status::Fine,
        counts: [0, 0, 0, 0],
    },
    Case {
        name: "words that are none",
        words: &["seq", "seq"],
        input: &[MEMTERM],
        fails: (&[], &[]),
        room: Room::AsAsked,
        status: Status::Words,
        counts: [0, 0, 0, 0],
    },
];

// The four come back, each with its list, and are dropped once, by whom they came back to.
fn is_told(rt: &(impl Abort + AllocGlobal), case: &Case) -> Result<(), Fail> {
    let alloc = rt.alloc();
    let mut input = Vec::new(alloc);
    for part in case.input {
        input.extend_from_slice(part.as_bytes())?;
    }
    let mut src = MemSource::new(input, Vec::from_slice(alloc, case.fails.0)?);
    let mut out = MemSink::new(alloc, 10_000, Vec::from_slice(alloc, case.fails.1)?)?;
    let drops = Arc::new(alloc, AtomicU64::new(0))?;
    let outcome = called(alloc, case.words, &mut src, &mut out, case.room, &drops)?;
    assert!(rt; outcome.status == case.status, "{}", case.name);
    assert!(rt; outcome.managers.len() == 4, "{}", case.name);
    for (manager, count) in outcome.managers.iter().zip(case.counts) {
        assert!(rt; manager.count() == count, "{}", case.name);
    }
    assert!(rt; drops.load(Ordering::SeqCst) == 0, "{}", case.name);
    drop(outcome);
    assert!(rt; drops.load(Ordering::SeqCst) == 4, "{}", case.name);
    Ok(())
}

#[test]
fn managers_are_told_of_the_releases_of_a_run(rt: HostRuntime) -> Result<(), Fail> {
    for case in &CASES {
        is_told(&rt, case)?;
    }
    Ok(())
}

// Writes down what it is told: of each release two digits, the unit's place from 1 on and the resource's number.
#[derive(Drop)]
struct Writing {
    manager: MemManager,
    told: Arc<AtomicU64>,
}

impl Manager for Writing {
    ghost class = { λ a. a.manager.class };

    ghost released = { λ a. a.manager.released };

    ghost spare = { λ a. a.manager.spare };

    fn reserve(&mut self, n: u64) -> Result<(), NoMemory> {
        self.manager.reserve(n)
    }

    fn release(&mut self, unit: u16, id: u32) {
        self.manager.release(unit, id);
        let before = self.told.load(Ordering::SeqCst).wrapping_mul(100);
        let pair = u64::from(unit)
            .wrapping_add(1)
            .wrapping_mul(10)
            .wrapping_add(u64::from(id));
        self.told.store(before.wrapping_add(pair), Ordering::SeqCst);
    }

    fn count(&self) -> u64 {
        self.manager.count()
    }
}

fn noting(alloc: Global, class: Res, told: &Arc<AtomicU64>) -> Result<Writing, AllocError>
    ensures { IfOk result (λ a. a.manager ≡ manager_of class) }
{
    let told = told.clone()?;
    let manager = MemManager::new(alloc, class);
    Ok(Writing { manager, told })
}

// What memory end releases of MEMTERM, each class in the order of the trace: A, which is unit 1, had ENQ 2 twice, and JOB
// ENQ 1; A had STOR 5, and JOB DSN 7.
#[test]
fn managers_are_told_in_the_order_of_the_trace(rt: HostRuntime) -> Result<(), Fail> {
    let alloc = rt.alloc();
    let enq = Arc::new(alloc, AtomicU64::new(0))?;
    let stor = Arc::new(alloc, AtomicU64::new(0))?;
    let dsn = Arc::new(alloc, AtomicU64::new(0))?;
    let timr = Arc::new(alloc, AtomicU64::new(0))?;
    let mut managers: Vec<Box<dyn Manager + Send>> = Vec::new(alloc);
    managers.push(Box::new(alloc, noting(alloc, Res::Enq, &enq)?)?)?;
    managers.push(Box::new(alloc, noting(alloc, Res::Stor, &stor)?)?)?;
    managers.push(Box::new(alloc, noting(alloc, Res::Dsn, &dsn)?)?)?;
    managers.push(Box::new(alloc, noting(alloc, Res::Timr, &timr)?)?)?;
    let mut src = MemSource::new(Vec::from_slice(alloc, MEMTERM.as_bytes())?, Vec::new(alloc));
    let mut out = MemSink::new(alloc, 10_000, Vec::new(alloc))?;
    let words = words(alloc, &["seq"])?;
    let outcome = plain_words(alloc, &words, &mut src, &mut out, managers);
    assert_eq!(rt; outcome.status, Status::Fine);
    assert_eq!(rt; enq.load(Ordering::SeqCst), 222_211);
    assert_eq!(rt; stor.load(Ordering::SeqCst), 25);
    assert_eq!(rt; dsn.load(Ordering::SeqCst), 17);
    assert_eq!(rt; timr.load(Ordering::SeqCst), 0);
    Ok(())
}
