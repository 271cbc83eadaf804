//! Traces that are verified, and decks that are made and run.

use crate::program_tests::{ROW_1, TRACE_1, said, words};
use crate::run_tests::{bare, endings};
use rtm_io::{MemSink, MemSource};
use rtm_top::Status;
use std::process::Abort;
use std::test::Fail;

// The trace of the night's batch: its entries up to the tenth, the next two, those up to the last, and the last.
const HEAD: &str = "RTMTRACE 1
0 JOB EXEC MAIN.1 RC=0
1 JOB EXEC MAIN.2 RC=0
2 JOB EXEC MAIN.3 RC=0
3 READ EXEC READER.1 RC=0
4 JOB EXEC MAIN.4 RC=0
5 READ EXEC READER.2 RC=0
6 CALC EXEC CALCPGM.1 RC=0
7 JOB EXEC MAIN.5 RC=0
8 READ ERROR READER.3 S0C4 REASON=00000010
9 PRINT EXEC PRINTER.1 RC=0
";

const TENTH: &str = "10 READ ENTER ESTAE 5 S0C4 REASON=00000010
11 READ EXEC READREC.1 RC=0
";

const TENTH_EXCHANGED: &str = "10 READ EXEC READREC.1 RC=0
11 READ ENTER ESTAE 5 S0C4 REASON=00000010
";

const TAIL: &str = "12 READ LEAVE ESTAE 5 RETRY READER.4 LOGREC
13 READ EXEC READER.4 RC=0
14 READ EXEC READER.5 RC=0
15 PRINT EXEC PRINTER.2 RC=0
16 READ BEGIN S000
17 PRINT ERROR PRINTER.3 U0020
18 READ DONE S000
19 PRINT BEGIN U0020 DUMP
20 JOB EXEC MAIN.6 RC=0
21 PRINT RELEASE DSN 2 PRINT
22 PRINT DONE U0020
23 CALC ARRIVE 0 QUEUED
24 CALC LAND CANCEL 23 S222 CLUP
25 CALC ENTER ESTAI 4 S222 CLUP
26 CALC EXEC WATCH.1 RC=0
27 CALC LEAVE ESTAI 4 PERC
28 CALC BEGIN S222
29 CALC RELEASE STOR 64 CALC
30 CALC DONE S222
31 JOB EXEC MAIN.7 RC=0
32 JOB EXEC MAIN.8 RC=0
33 JOB EXEC MAIN.9 RC=0
34 JOB BEGIN S000
35 JOB DONE S000
";

const LAST: &str = "36 * MEMEND
";

const ENDED: &str = "END ENDED
";

// The rows of one deck: the trace in parts, the status, and what is written.
type Judged = (&'static [&'static str], Status, &'static str);

static BATCH: [Judged; 5] = [
    (
        &[HEAD, TENTH, TAIL, LAST, ENDED],
        Status::Fine,
        "VERIFIED 37 ENDED\n",
    ),
    (&[HEAD, TENTH, TAIL, LAST], Status::Line, "LINE 39\n"),
    (
        &[HEAD, TENTH_EXCHANGED, TAIL, LAST, ENDED],
        Status::NotLegal,
        "NOTLEGAL 10 WANTED READ ENTER ESTAE 5 S0C4 REASON=00000010\n",
    ),
    (
        &[HEAD, TENTH, TAIL, LAST, "END LIMIT\n"],
        Status::WrongEnd,
        "WRONGEND LIMIT ENDED\n",
    ),
    (
        &[HEAD, TENTH, TAIL, ENDED],
        Status::WrongEnd,
        "WRONGEND ENDED NONE\n",
    ),
];

const REST: &str = "1 JOB BEGIN S000
2 JOB DONE S000
3 * MEMEND
";

static SHORT: [Judged; 10] = [
    (&[TRACE_1], Status::Fine, "VERIFIED 4 ENDED\n"),
    (&[], Status::Line, "LINE 1\n"),
    (
        &["RTMTRACE 1\n0 JOB EXEC MAIN.1 RC=00\n", REST, ENDED],
        Status::Line,
        "LINE 2\n",
    ),
    (
        &["RTMTRACE 1\n0 JOB EXEC MAIN.4 RC=0\n", REST, ENDED],
        Status::Line,
        "LINE 2\n",
    ),
    (
        &["RTMTRACE 1\n0 JOB EXEC MAIN.2 RC=0\n", REST, ENDED],
        Status::NotLegal,
        "NOTLEGAL 0 WANTED JOB EXEC MAIN.1 RC=0\n",
    ),
    (
        &["RTMTRACE 1\n0 JOB EXEC MAIN.1 RC=255\n", REST, ENDED],
        Status::NotLegal,
        "NOTLEGAL 0 WANTED JOB EXEC MAIN.1 RC=0\n",
    ),
    (
        &["RTMTRACE 1\n0 * MEMEND\n", ENDED],
        Status::NotLegal,
        "NOTLEGAL 0 WANTED NONE\n",
    ),
    (
        &[
            "RTMTRACE 1\n0 JOB EXEC MAIN.1 RC=0\n5 JOB BEGIN S000\n2 JOB DONE S000\n3 * MEMEND\n",
            ENDED,
        ],
        Status::Line,
        "LINE 3\n",
    ),
    (&[TRACE_1, ENDED], Status::Line, "LINE 7\n"),
    (
        &["RTMTRACE 1\n0 JOB EXEC MAIN.1 RC=0\n", REST, "END ENDED"],
        Status::Line,
        "LINE 6\n",
    ),
];

// The entries before a routine is entered, where an ABEND is the second card.
const BEFORE_ENTER: &str = "RTMTRACE 1
0 JOB EXEC MAIN.1 RC=0
1 JOB ERROR MAIN.2 S0C1
";

// Input that isn't a deck with a trace: a deck that is refused, and one that no card ends.
static REFUSED: [(&str, &str); 3] = [
    (
        "MAIN PROG\n FROB\n PEND\nJOB TASK PGM=MAIN\n END\nRTMTRACE 1\nEND ENDED\n",
        "DECK 2 UnknownOp\n",
    ),
    (
        "MAIN PROG\n NOP\n PEND\nJOB TASK PGM=MAIN\nX END\n",
        "DECK 5 BadCard\n",
    ),
    ("", "DECK 1 NoJobStep\n"),
];

// Runs the program with these words on an input in parts, with calls of the source that fail, and compares what it
// answers.
fn is_said(
    rt: &(impl Abort + AllocGlobal),
    list: &[&str],
    fail: &[u32],
    deck: &str,
    trace: &[&str],
    status: Status,
    text: &str,
) -> Result<(), Fail> {
    let alloc = rt.alloc();
    let mut input = Vec::from_slice(alloc, deck.as_bytes())?;
    for part in trace {
        input.extend_from_slice(part.as_bytes())?;
    }
    let mut src = MemSource::new(input, Vec::from_slice(alloc, fail)?);
    let mut out = MemSink::new(alloc, 1_000, Vec::new(alloc))?;
    let found = said(alloc, &words(alloc, list)?, &mut src, &mut out)?;
    assert!(rt; found == status, "{text}");
    assert!(rt; out.bytes() == text.as_bytes(), "{text}");
    Ok(())
}

#[test]
fn traces_are_judged(rt: HostRuntime) -> Result<(), Fail> {
    for (trace, status, text) in SHORT.iter() {
        is_said(&rt, &["verify"], &[], ROW_1, trace, *status, text)?;
    }
    for (trace, status, text) in BATCH.iter() {
        is_said(
            &rt,
            &["verify"],
            &[],
            endings::ROWS[1].deck,
            trace,
            *status,
            text,
        )?;
    }
    for (input, text) in REFUSED.iter() {
        is_said(&rt, &["verify"], &[], input, &[], Status::Deck, text)?;
    }
    Ok(())
}

#[test]
fn traces_without_an_sdwa_are_judged(rt: HostRuntime) -> Result<(), Fail> {
    let right = [
        "VERIFIED 10 ENDED\n",
        "VERIFIED 8 ENDED\n",
        "VERIFIED 9 ENDED\n",
    ];
    for (row, text) in bare::ROWS.iter().zip(right) {
        let trace = [row.trace];
        is_said(&rt, &["verify"], &[], row.deck, &trace, Status::Fine, text)?;
    }
    let wrong = [
        (
            0,
            "2 JOB ENTER ESTAE 0 S0C1\n",
            "NOTLEGAL 2 WANTED JOB ENTER ESTAE 0 S0C1 NOSDWA\n",
        ),
        (
            2,
            "2 JOB ENTER FRR 0 S0C1 NOSDWA\n",
            "NOTLEGAL 2 WANTED JOB ENTER FRR 0 S0C1\n",
        ),
    ];
    for (row, line, text) in wrong {
        let deck = bare::ROWS[row].deck;
        let trace = [BEFORE_ENTER, line, ENDED];
        is_said(&rt, &["verify"], &[], deck, &trace, Status::NotLegal, text)?;
    }
    Ok(())
}

// An input that is too long as a whole is refused, however short its deck is: the lines of deck and trace are counted.
#[test]
fn traces_are_not_too_long(rt: HostRuntime) -> Result<(), Fail> {
    let alloc = rt.alloc();
    let mut line = String::new(alloc);
    for _ in 0..262_144 {
        line.push_str("****************************************************************")?;
    }
    let trace = ["RTMTRACE 1\n", line.as_str()];
    is_said(
        &rt,
        &["verify"],
        &[],
        ROW_1,
        &trace,
        Status::Deck,
        "DECK 8 TooLong\n",
    )
}

// The source fails at its first call, but a load makes none.
#[test]
fn loads_are_run(rt: HostRuntime) -> Result<(), Fail> {
    let cases = [
        ("1", "LOAD 1 ENTRIES 494 RELEASES 42 ENDED\n"),
        ("60", "LOAD 60 ENTRIES 29345 RELEASES 2461 ENDED\n"),
    ];
    for (number, text) in cases {
        is_said(&rt, &["load", number], &[0], "", &[], Status::Fine, text)?;
    }
    Ok(())
}
