//! Lines of a trace that are misspelled by one character.

use rtm_deck::{Deck, read_deck};
use rtm_trace::{TraceFault, read_trace, trace_text};
use std::alloc::{AllocError, Global};
use std::process::Abort;
use std::test::Fail;

const DECK: &[u8] = b"MAIN PROG
 NOP
 RETURN
 PEND
R PROG
 PEND
S SRB PGM=MAIN
JOB TASK PGM=MAIN
A TASK PGM=R
 OPER
 CANCEL A
 CANCEL JOB,AT=3
 END
";

// A line, and which of its changes by one character make another line that may stand in its place. All others are
// wrong.
struct Row {
    line: &'static str,
    /// Bytes that may stand at an index in place of the one that does.
    replaced: &'static [(usize, &'static str)],
    /// Bytes that may be put before the one at an index.
    inserted: &'static [(usize, &'static str)],
    /// Indices of bytes that may be left out.
    left_out: &'static [usize],
    /// What stands before these indices is a whole line, so that behind a line feed there the next line is the bad one.
    cuts: &'static [usize],
}

// A line of each kind of entry. The changes that are right were found by another program.
static ROWS: [Row; 11] = [
    Row {
        line: "0 JOB EXEC MAIN.1 RC=0",
        replaced: &[(16, "23"), (21, "123456789")],
        inserted: &[(21, "123456789")],
        left_out: &[],
        cuts: &[22],
    },
    Row {
        line: "0 JOB ERROR MAIN.3 S0C4 REASON=0000BEEF CLUP PERC STAF",
        replaced: &[
            (17, "12"),
            (20, "123456789ABCDEF"),
            (21, "0123456789ABDEF"),
            (22, "012356789ABCDEF"),
            (31, "123456789ABCDEF"),
            (32, "123456789ABCDEF"),
            (33, "123456789ABCDEF"),
            (34, "123456789ABCDEF"),
            (35, "0123456789ACDEF"),
            (36, "0123456789ABCDF"),
            (37, "0123456789ABCDF"),
            (38, "0123456789ABCDE"),
        ],
        inserted: &[],
        left_out: &[],
        cuts: &[23, 39, 44, 49, 54],
    },
    Row {
        line: "0 S LAND CANCEL 7 S222 CLUP",
        replaced: &[
            (2, "*A"),
            (16, "012345689"),
            (19, "013456789ABCDEF"),
            (20, "013456789ABCDEF"),
            (21, "013456789ABCDEF"),
        ],
        inserted: &[(16, "123456789"), (17, "0123456789")],
        left_out: &[],
        cuts: &[22, 27],
    },
    Row {
        line: "0 A ENTER ESTAE 4 U0020 PERC STAF",
        replaced: &[
            (2, "*S"),
            (14, "I"),
            (16, "012356789"),
            (19, "1234"),
            (20, "123456789"),
            (21, "013456789"),
            (22, "123456789"),
        ],
        inserted: &[(16, "123456789"), (17, "0123456789")],
        left_out: &[],
        cuts: &[23, 28, 33],
    },
    Row {
        line: "0 A LEAVE ESTAI 6 RETRY MAIN.2 LOGREC DUMP",
        replaced: &[(2, "*S"), (14, "E"), (16, "012345789"), (29, "13")],
        inserted: &[(16, "123456789"), (17, "0123456789")],
        left_out: &[],
        cuts: &[30, 37, 42],
    },
    Row {
        line: "0 JOB ARRIVE 1 MERGED",
        replaced: &[(13, "0")],
        inserted: &[],
        left_out: &[],
        cuts: &[21],
    },
    Row {
        line: "0 JOB BEGIN U4095 DUMP",
        replaced: &[(13, "0123"), (15, "012345678"), (16, "01234")],
        inserted: &[],
        left_out: &[],
        cuts: &[17, 22],
    },
    Row {
        line: "0 * RELEASE TIMR 999999 A",
        replaced: &[
            (2, "AS"),
            (17, "12345678"),
            (18, "012345678"),
            (19, "012345678"),
            (20, "012345678"),
            (21, "012345678"),
            (22, "012345678"),
            (24, "*S"),
        ],
        inserted: &[],
        left_out: &[17, 18, 19, 20, 21, 22],
        cuts: &[25],
    },
    Row {
        line: "0 A DONE S0C1 TASK=LATE STEP=QUEUED",
        replaced: &[
            (2, "*S"),
            (10, "123456789ABCDEF"),
            (11, "0123456789ABDEF"),
            (12, "023456789ABCDEF"),
        ],
        inserted: &[],
        left_out: &[],
        cuts: &[13, 23, 35],
    },
    Row {
        line: "0 * PURGE A",
        replaced: &[(2, "AS"), (10, "S")],
        inserted: &[],
        left_out: &[],
        cuts: &[11],
    },
    Row {
        line: "0 * MEMEND",
        replaced: &[(2, "AS")],
        inserted: &[],
        left_out: &[],
        cuts: &[10],
    },
];

// ENTERs without an SDWA.
static BARE: [Row; 3] = [
    Row {
        line: "0 A ENTER ESTAI 4 U0020 REASON=00000010 CLUP PERC STAF NOSDWA",
        replaced: &[
            (2, "*S"),
            (14, "E"),
            (16, "012356789"),
            (19, "1234"),
            (20, "123456789"),
            (21, "013456789"),
            (22, "123456789"),
            (31, "123456789ABCDEF"),
            (32, "123456789ABCDEF"),
            (33, "123456789ABCDEF"),
            (34, "123456789ABCDEF"),
            (35, "123456789ABCDEF"),
            (36, "123456789ABCDEF"),
            (37, "023456789ABCDEF"),
            (38, "123456789ABCDEF"),
        ],
        inserted: &[(16, "123456789"), (17, "0123456789")],
        left_out: &[],
        cuts: &[23, 39, 44, 49, 54, 61],
    },
    Row {
        line: "0 S ENTER FRR 12 S0C4 NOSDWA",
        replaced: &[
            (2, "*A"),
            (14, "23456789"),
            (15, "013456789"),
            (18, "123456789ABCDEF"),
            (19, "0123456789ABDEF"),
            (20, "012356789ABCDEF"),
        ],
        inserted: &[(14, "123456789"), (15, "0123456789"), (16, "0123456789")],
        left_out: &[14, 15],
        cuts: &[21, 28],
    },
    Row {
        line: "0 * ENTER MGR 3 S000 NOSDWA",
        replaced: &[
            (2, "AS"),
            (14, "012456789"),
            (17, "123456789ABCDEF"),
            (18, "123456789ABCDEF"),
            (19, "123456789ABCDEF"),
        ],
        inserted: &[(14, "123456789"), (15, "0123456789")],
        left_out: &[],
        cuts: &[20, 27],
    },
];

#[derive(Clone, Copy, Debug, PartialEq, Eq)]
enum Change {
    Replaced(u8),
    Inserted(u8),
    LeftOut,
}

fn lists(table: &[(usize, &str)], at: usize, byte: u8) -> bool {
    table.iter().any(|(index, bytes)| *index == at && bytes.as_bytes().contains(&byte))
}

// The number of the bad line, the format's line being the first, or none where the change makes a right line.
fn wanted_fault(row: &Row, at: usize, change: Change) -> Option<u32> {
    let right = match change {
        Change::Replaced(byte) => lists(row.replaced, at, byte),
        Change::Inserted(byte) => lists(row.inserted, at, byte),
        Change::LeftOut => row.left_out.contains(&at),
    };
    let cut = match change {
        Change::Replaced(byte) | Change::Inserted(byte) => byte == b'\n' && row.cuts.contains(&at),
        Change::LeftOut => false,
    };
    if right {
        None
    } else if cut {
        Some(3)
    } else {
        Some(2)
    }
}

fn push_change(text: &mut Vec<u8>, byte: u8, change: Change) -> Result<(), AllocError> {
    match change {
        Change::Replaced(other) => text.push(other)?,
        Change::Inserted(other) => text.extend_from_slice(&[other, byte])?,
        Change::LeftOut => {}
    }
    Ok(())
}

// A trace of that one line, changed at that index.
fn trace_with(
    alloc: Global,
    line: &[u8],
    at: usize,
    change: Change,
) -> Result<Vec<u8>, AllocError> {
    let mut text = Vec::from_slice(alloc, b"RTMTRACE 1\n")?;
    for (index, byte) in line.iter().enumerate() {
        if index == at {
            push_change(&mut text, *byte, change)?;
        } else {
            text.push(*byte)?;
        }
    }
    text.extend_from_slice(b"END ENDED\n")?;
    Ok(text)
}

fn is_answered(
    rt: &(impl Abort + AllocGlobal),
    deck: &Deck,
    row: &Row,
    at: usize,
    change: Change,
) -> Result<(), Fail> {
    let alloc = rt.alloc();
    let mut line = Vec::from_slice(alloc, row.line.as_bytes())?;
    line.push(b'\n')?;
    let text = trace_with(alloc, &line, at, change)?;
    assert!(rt; text.len() <= 1000);
    match read_trace(alloc, deck, &text) {
        Ok((entries, end)) => {
            assert_eq!(rt;
                wanted_fault(row, at, change),
                None,
                "{}, {at}: {change:?}",
                row.line
            );
            assert!(rt;
                trace_text(alloc, deck, &entries, end)? == text,
                "{}, {at}: {change:?}",
                row.line
            );
        }
        Err(TraceFault::BadLine { line }) => {
            assert_eq!(rt;
                wanted_fault(row, at, change),
                Some(line),
                "{}, {at}: {change:?}",
                row.line
            );
        }
        Err(TraceFault::Memory) => return Err(Fail::from(AllocError)),
    }
    Ok(())
}

// Every line with every byte replaced by every other, left out, or behind every byte more.
fn are_answered(rt: &(impl Abort + AllocGlobal), rows: &[Row]) -> Result<(), Fail> {
    let deck = read_deck(rt.alloc(), DECK)?;
    for row in rows {
        for (at, own) in row.line.as_bytes().iter().enumerate() {
            for byte in 0..=255u8 {
                if byte != *own {
                    is_answered(rt, &deck, row, at, Change::Replaced(byte))?;
                }
                is_answered(rt, &deck, row, at, Change::Inserted(byte))?;
            }
            is_answered(rt, &deck, row, at, Change::LeftOut)?;
        }
        let end = row.line.as_bytes().len();
        for byte in 0..=255u8 {
            is_answered(rt, &deck, row, end, Change::Inserted(byte))?;
        }
        is_answered(rt, &deck, row, end, Change::LeftOut)?;
    }
    Ok(())
}

#[test]
fn misspelled_lines_are_bad(rt: HostRuntime) -> Result<(), Fail> {
    are_answered(&rt, &ROWS)
}

#[test]
fn misspelled_bare_enters_are_bad(rt: HostRuntime) -> Result<(), Fail> {
    are_answered(&rt, &BARE)
}
