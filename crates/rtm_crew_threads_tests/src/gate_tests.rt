//! Two workers run side by side, and each makes the entries of its own unit.

use crate::calls::{called, entries_of};
use crate::decks::BATCH;
use crate::record::Record;
use rtm_crew_threads::{Gate, OpenGate};
use rtm_model::{Entry, Place, What};
use rtm_top::Status;
use std::sync::atomic::{AtomicBool, Ordering};
use std::test::Fail;

// How often a worker looks for the other before it gives up.
const LOOKS: u32 = 100_000_000;

const JOB: u16 = 0;

const READ: u16 = 1;

// Two that wait for each other, and which of them have met the other.
#[derive(Drop)]
struct Meeting {
    job_came: AtomicBool,
    read_came: AtomicBool,
    job_met: AtomicBool,
    read_met: AtomicBool,
}

fn make_meeting() -> Meeting {
    Meeting {
        job_came: AtomicBool::new(false),
        read_came: AtomicBool::new(false),
        job_met: AtomicBool::new(false),
        read_met: AtomicBool::new(false),
    }
}

fn meet(came: &AtomicBool, other: &AtomicBool, met: &AtomicBool) {
    came.store(true, Ordering::SeqCst);
    for _ in 0..LOOKS {
        if other.load(Ordering::SeqCst) {
            met.store(true, Ordering::SeqCst);
            return;
        }
    }
}

impl Meeting {
    fn job_meets(&self) {
        meet(&self.job_came, &self.read_came, &self.job_met);
    }

    fn read_meets(&self) {
        meet(&self.read_came, &self.job_came, &self.read_met);
    }

    fn both_met(&self) -> bool {
        self.job_met.load(Ordering::SeqCst) && self.read_met.load(Ordering::SeqCst)
    }
}

// Its first two workers pass it together.
#[derive(Drop)]
struct Passing {
    meeting: Meeting,
}

impl Gate for Passing {
    fn pass(&self, unit: u16) {
        match unit {
            JOB => self.meeting.job_meets(),
            READ => self.meeting.read_meets(),
            _ => {}
        }
    }

    fn made(&self, _index: u32, _entry: &Entry) {}
}

#[test]
fn two_workers_run_side_by_side(rt: HostRuntime) -> Result<(), Fail> {
    let alloc = rt.alloc();
    let gate = Passing {
        meeting: make_meeting(),
    };
    let (status, trace) = called(&rt, alloc, "run", &[BATCH], &gate)?;
    assert!(rt; gate.meeting.both_met());
    assert!(rt; status == Status::Fine);
    let (judgement, _) = called(&rt, alloc, "verify", &[BATCH, trace.as_slice()], &OpenGate)?;
    assert!(rt; judgement == Status::Fine);
    Ok(())
}

// The maker of JOB's third entry and that of READ's first meet, each before it makes another.
#[derive(Drop)]
struct Making {
    meeting: Meeting,
    read_was_told: AtomicBool,
    record: Record,
}

impl Gate for Making {
    fn pass(&self, _unit: u16) {}

    fn made(&self, index: u32, entry: &Entry) {
        self.record.note(index, entry);
        match (entry.unit, entry.what) {
            (
                JOB,
                What::Exec {
                    at: Place { prog: 0, op: 3 },
                    ..
                },
            ) => self.meeting.job_meets(),
            (READ, _) => {
                if !self.read_was_told.swap(true, Ordering::SeqCst) {
                    self.meeting.read_meets();
                }
            }
            _ => {}
        }
    }
}

#[test]
fn each_makes_its_own_entries(rt: HostRuntime) -> Result<(), Fail> {
    let alloc = rt.alloc();
    let gate = Making {
        meeting: make_meeting(),
        read_was_told: AtomicBool::new(false),
        record: Record::new(alloc)?,
    };
    let (status, trace) = called(&rt, alloc, "run", &[BATCH], &gate)?;
    assert!(rt; gate.meeting.both_met());
    assert!(rt; status == Status::Fine);
    match entries_of(alloc, BATCH, &trace) {
        Some(entries) => assert!(rt; gate.record.is_of(&entries)),
        None => assert!(rt; false),
    }
    let (judgement, _) = called(&rt, alloc, "verify", &[BATCH, trace.as_slice()], &OpenGate)?;
    assert!(rt; judgement == Status::Fine);
    Ok(())
}

const ONE_UNIT: &[u8] = b"MAIN PROG
 NOP
 RETURN
 PEND
JOB TASK PGM=MAIN
 END
";

const ITS_TRACE: &[u8] = b"RTMTRACE 1
0 JOB EXEC MAIN.1 RC=0
1 JOB BEGIN S000
2 JOB DONE S000
3 * MEMEND
END ENDED
";

// A deck of one unit has one history.
#[test]
fn one_unit_is_run(rt: HostRuntime) -> Result<(), Fail> {
    let (status, trace) = called(&rt, rt.alloc(), "run", &[ONE_UNIT], &OpenGate)?;
    assert!(rt; status == Status::Fine);
    assert!(rt; trace.as_slice() == ITS_TRACE);
    Ok(())
}
