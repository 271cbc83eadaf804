//! Decks that are run, with their traces and statuses.

mod aborts;
pub mod bare;
pub mod endings;
mod recovery;
mod units;

use crate::program_tests::{said, words};
use rtm_io::{MemSink, MemSource};
use rtm_top::Status;
use std::alloc::Global;
use std::process::Abort;
use std::test::Fail;

/// A deck, and what `seq` answers to it.
pub struct Row {
    pub name: &'static str,
    pub deck: &'static str,
    pub status: Status,
    pub trace: &'static str,
}

// The deck of the table of cancels, up to the number in AT=.
const CANCELLED: &str = "MAIN PROG
 ESTAEX CT,PGM=KEEP,TERM=YES
 ESTAEX CT,PGM=R1
 ABEND S0C1
BACK NOP
 PEND
R1 PROG
 ESTAEX CT,PGM=R2
 ABEND U1
 PEND
R2 PROG
 ESTAEX CT,PGM=R3
 NOP
 ABEND U2
 PEND
R3 PROG
 PEND
KEEP PROG
 SETRP RC=4,RETADDR=BACK
 PEND
JOB TASK PGM=MAIN
 OPER
 CANCEL JOB,AT=";

// For AT=0 and on: the index of the entry at which the cancel lands, and the number of entries in all. From 12 to 16 it
// lands inside of KEEP.
static LANDINGS: [(u32, usize); 19] = [
    (1, 5),
    (2, 9),
    (3, 10),
    (5, 13),
    (5, 13),
    (6, 14),
    (8, 17),
    (8, 17),
    (9, 18),
    (10, 19),
    (12, 22),
    (12, 22),
    (16, 21),
    (16, 21),
    (16, 21),
    (16, 21),
    (17, 22),
    (18, 25),
    (19, 26),
];

// Runs a deck under seq, and gives the sink that was written and the status.
fn run(alloc: Global, deck: &str) -> Result<(MemSink, Status), Fail> {
    let bytes = Vec::from_slice(alloc, deck.as_bytes())?;
    let mut src = MemSource::new(bytes, Vec::new(alloc));
    let mut out = MemSink::new(alloc, 2_000_000, Vec::new(alloc))?;
    let status = said(alloc, &words(alloc, &["seq"])?, &mut src, &mut out)?;
    Ok((out, status))
}

// Runs a deck under seq, and compares its status and each byte of what it writes.
fn is_run(
    rt: &(impl Abort + AllocGlobal),
    name: &str,
    deck: &str,
    status: Status,
    trace: &str,
) -> Result<(), Fail> {
    let (out, found) = run(rt.alloc(), deck)?;
    assert!(rt; found == status, "{name}");
    assert!(rt; out.bytes() == trace.as_bytes(), "{name}");
    Ok(())
}

#[test]
fn decks_of_each_kind_are_run(rt: HostRuntime) -> Result<(), Fail> {
    for rows in [
        recovery::ROWS.as_slice(),
        bare::ROWS.as_slice(),
        aborts::ROWS.as_slice(),
        units::ROWS.as_slice(),
        endings::ROWS.as_slice(),
    ] {
        for row in rows {
            is_run(&rt, row.name, row.deck, row.status, row.trace)?;
        }
    }
    Ok(())
}

// Wherever the command arrives, the abort lands where it may, and the task ends by it. With AT=19 the run is over
// before.
#[test]
fn a_cancel_lands_at_every_point(rt: HostRuntime) -> Result<(), Fail> {
    let alloc = rt.alloc();
    for (at, (landing, entries)) in LANDINGS.iter().enumerate() {
        let deck = format!(in alloc; "{CANCELLED}{at}\n END\n")?;
        let (out, status) = run(alloc, &deck)?;
        let text = str::from_utf8(out.bytes())?;
        let line = format!(in alloc; "\n{landing} JOB LAND CANCEL ")?;
        assert!(rt; status == Status::Fine, "AT={at}");
        assert!(rt; text.contains(line.as_str()), "AT={at}");
        assert!(rt; text.contains(" JOB BEGIN S222\n"), "AT={at}");
        assert_eq!(rt; text.lines().count(), entries.wrapping_add(2), "AT={at}");
    }

    let deck = format!(in alloc; "{CANCELLED}19\n END\n")?;
    let (out, status) = run(alloc, &deck)?;
    let text = str::from_utf8(out.bytes())?;
    assert!(rt; status == Status::Fine);
    assert!(rt; !text.contains("LAND"));
    assert!(rt; text.contains(" JOB BEGIN S000\n"));
    assert_eq!(rt; text.lines().count(), 23);
    Ok(())
}
