//! The top call, over sources and sinks that fail.

use rtm_desk::{Manager, MemManager};
use rtm_io::{MemSink, MemSource};
use rtm_model::Res;
use rtm_top::{RtmWord, Status, plain_words};
use std::alloc::{AllocError, Global};
use std::process::Abort;
use std::test::Fail;

pub fn words(alloc: Global, texts: &[&str]) -> Result<Vec<RtmWord>, AllocError> {
    let mut all = Vec::new(alloc);
    for text in texts {
        all.push(RtmWord {
            text: String::from_str(alloc, text)?,
        })?;
    }
    Ok(all)
}

/// Calls the program with these words and with managers in memory, and gives the status.
pub fn said(
    alloc: Global,
    words: &[RtmWord],
    src: &mut MemSource,
    out: &mut MemSink,
) -> Result<Status, AllocError> {
    let mut managers: Vec<Box<dyn Manager + Send>> = Vec::new(alloc);
    managers.push(Box::new(alloc, MemManager::new(alloc, Res::Enq))?)?;
    managers.push(Box::new(alloc, MemManager::new(alloc, Res::Stor))?)?;
    managers.push(Box::new(alloc, MemManager::new(alloc, Res::Dsn))?)?;
    managers.push(Box::new(alloc, MemManager::new(alloc, Res::Timr))?)?;
    let outcome = plain_words(alloc, words, src, out, managers);
    Ok(outcome.status)
}

fn source(alloc: Global, deck: &str, fail: &[u32]) -> Result<MemSource, AllocError> {
    Ok(MemSource::new(
        Vec::from_slice(alloc, deck.as_bytes())?,
        Vec::from_slice(alloc, fail)?,
    ))
}

/// Runs the program with a word on a deck, with calls of the source and of the sink that fail, and compares what it
/// answers.
pub fn is_answered(
    rt: &(impl Abort + AllocGlobal),
    word: &str,
    deck: &str,
    fail: (&[u32], &[u32]),
    status: Status,
    text: &str,
) -> Result<(), Fail> {
    let alloc = rt.alloc();
    let mut src = source(alloc, deck, fail.0)?;
    let mut out = MemSink::new(alloc, 100_000, Vec::from_slice(alloc, fail.1)?)?;
    let found = said(alloc, &words(alloc, &[word])?, &mut src, &mut out)?;
    assert!(rt; found == status, "{deck}");
    assert!(rt; out.bytes() == text.as_bytes(), "{deck}");
    Ok(())
}

pub const ROW_1: &str = "MAIN PROG\n NOP\n RETURN\n PEND\nJOB TASK PGM=MAIN\n END\n";

pub const TRACE_1: &str =
    "RTMTRACE 1\n0 JOB EXEC MAIN.1 RC=0\n1 JOB BEGIN S000\n2 JOB DONE S000\n3 * MEMEND\nEND ENDED\n";

const ROW_4: &str = "MAIN PROG\n ABEND U4095\n RETURN\n PEND\nJOB TASK PGM=MAIN\n END\n";

const TRACE_4: &str =
    "RTMTRACE 1\n0 JOB ERROR MAIN.1 U4095\n1 JOB BEGIN U4095\n2 JOB DONE U4095\n3 * MEMEND\nEND ENDED\n";

const ROW_5: &str =
    "* TWO ROUTINES\nMAIN PROG\n ESTAEX CT,PGM=OLD\n ESTAEX CT,PGM=NEW\n ABEND S0C1\nAGAIN ABEND S0C4\n PEND\n\nOLD PROG\n SETRP RC=4,RETADDR=AGAIN,REMREC=YES\n PEND\nNEW PROG\n SETRP RC=0\n PEND\nJOB TASK PGM=MAIN\n END";

const TRACE_5: &str =
    "RTMTRACE 1\n0 JOB EXEC MAIN.1 RC=0\n1 JOB EXEC MAIN.2 RC=0\n2 JOB ERROR MAIN.3 S0C1\n3 JOB ENTER ESTAE 1 S0C1\n4 JOB EXEC NEW.1 RC=0\n5 JOB LEAVE ESTAE 1 PERC\n6 JOB ENTER ESTAE 0 S0C1 PERC\n7 JOB EXEC OLD.1 RC=0\n8 JOB LEAVE ESTAE 0 RETRY MAIN.4\n9 JOB ERROR MAIN.4 S0C4\n10 JOB BEGIN S0C4\n11 JOB DONE S0C4\n12 * MEMEND\nEND ENDED\n";

const LOOP: &str =
    " REGION LIMIT=10\nMAIN PROG\n ESTAEX CT,PGM=OLD\n ESTAEX CT,PGM=NEW\nAGAIN ABEND S0C1\n ABEND S0C4\n PEND\nOLD PROG\n SETRP RC=4,RETADDR=AGAIN,REMREC=NO\n PEND\nNEW PROG\n SETRP RC=0\n PEND\nJOB TASK PGM=MAIN\n END\n";

const LOOP_TRACE: &str =
    "RTMTRACE 1\n0 JOB EXEC MAIN.1 RC=0\n1 JOB EXEC MAIN.2 RC=0\n2 JOB ERROR MAIN.3 S0C1\n3 JOB ENTER ESTAE 1 S0C1\n4 JOB EXEC NEW.1 RC=0\n5 JOB LEAVE ESTAE 1 PERC\n6 JOB ENTER ESTAE 0 S0C1 PERC\n7 JOB EXEC OLD.1 RC=0\n8 JOB LEAVE ESTAE 0 RETRY MAIN.3\n9 JOB ERROR MAIN.3 S0C1\nEND LIMIT\n";

const GET_CARD: &str = "MAIN PROG\n GET ENQ,1\n RETURN\n PEND\nJOB TASK PGM=MAIN\n END\n";

const GET_TRACE: &str =
    "RTMTRACE 1\n0 JOB EXEC MAIN.1 RC=0\n1 JOB BEGIN S000\n2 JOB RELEASE ENQ 1 JOB\n3 JOB DONE S000\n4 * MEMEND\nEND ENDED\n";

const LOOSE: &str =
    "* A TRY\nMAIN  PROG\n ABEND   U0007,DUMP=NO,REASON=0004 TRY\n\n RETURN OPERANDS\n PEND\nJOB TASK PGM=MAIN\n OPER\n END";

const TIGHT: &str = "MAIN PROG\n ABEND U7,REASON=4\n RETURN\n PEND\nJOB TASK PGM=MAIN\n END\n";

const BAD_CODE: &str = "MAIN PROG\n ABEND U4096\n RETURN\n PEND\nJOB TASK PGM=MAIN\n END\n";

#[test]
fn decks_are_run(rt: HostRuntime) -> Result<(), Fail> {
    let cases = [
        (ROW_1, Status::Fine, TRACE_1),
        (ROW_4, Status::Fine, TRACE_4),
        (ROW_5, Status::Fine, TRACE_5),
        (LOOP, Status::AtLimit, LOOP_TRACE),
        (GET_CARD, Status::Fine, GET_TRACE),
        ("", Status::Deck, "DECK 1 NoJobStep\n"),
    ];
    for (deck, status, text) in cases {
        is_answered(&rt, "seq", deck, (&[], &[]), status, text)?;
    }
    is_answered(&rt, "run", ROW_1, (&[], &[]), Status::Fine, TRACE_1)
}

#[test]
fn decks_are_scanned(rt: HostRuntime) -> Result<(), Fail> {
    let cases = [
        (ROW_1, Status::Fine, ROW_1),
        (LOOP, Status::Fine, LOOP),
        (GET_CARD, Status::Fine, GET_CARD),
        (LOOSE, Status::Fine, TIGHT),
        (BAD_CODE, Status::Deck, "DECK 2 BadOperand\n"),
        ("", Status::Deck, "DECK 1 NoJobStep\n"),
    ];
    for (deck, status, text) in cases {
        is_answered(&rt, "scan", deck, (&[], &[]), status, text)?;
    }
    is_answered(&rt, "scan", ROW_1, (&[0], &[]), Status::Read, "")?;
    is_answered(&rt, "scan", ROW_1, (&[], &[0]), Status::Write, "")
}

// The source gives its bytes at its first call, and the end at its second.
#[test]
fn a_source_that_fails_leaves_nothing_written(rt: HostRuntime) -> Result<(), Fail> {
    for call in 0..2 {
        is_answered(&rt, "seq", ROW_1, (&[call], &[]), Status::Read, "")?;
    }
    is_answered(&rt, "seq", ROW_1, (&[2], &[]), Status::Fine, TRACE_1)
}

#[test]
fn a_sink_that_fails_leaves_a_prefix_written(rt: HostRuntime) -> Result<(), Fail> {
    is_answered(&rt, "seq", ROW_1, (&[], &[0]), Status::Write, "")?;
    is_answered(&rt, "seq", ROW_1, (&[], &[1]), Status::Fine, TRACE_1)?;

    let alloc = rt.alloc();
    let mut src = source(alloc, ROW_1, &[])?;
    let mut out = MemSink::new(alloc, 20, Vec::new(alloc))?;
    let found = said(alloc, &words(alloc, &["seq"])?, &mut src, &mut out)?;
    assert_eq!(rt; found, Status::Write);
    assert!(rt; out.bytes() == b"RTMTRACE 1\n0 JOB EXE".as_slice());
    Ok(())
}

#[test]
fn other_words_touch_nothing(rt: HostRuntime) -> Result<(), Fail> {
    let alloc = rt.alloc();
    let lists: [&[&str]; 10] = [
        &[],
        &["scan", "scan"],
        &["run", "run"],
        &["SEQ"],
        &["verify", "verify"],
        &["load"],
        &["load", "0"],
        &["load", "61"],
        &["load", "07"],
        &["load", "1", "1"],
    ];
    for list in lists {
        let mut src = source(alloc, ROW_1, &[0])?;
        let mut out = MemSink::new(alloc, 100, Vec::from_slice(alloc, &[0])?)?;
        let found = said(alloc, &words(alloc, list)?, &mut src, &mut out)?;
        assert_eq!(rt; found, Status::Words);
        assert_eq!(rt; (src.faults(), out.faults()), (0, 0));
    }
    Ok(())
}
