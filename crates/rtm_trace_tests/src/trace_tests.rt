//! The text of a trace, written and read.

use rtm_codes::Code;
use rtm_deck::read_deck;
use rtm_model::{Class, End, Entry, Fate, Kind, Mark, Place, Res, Verdict, What};
use rtm_trace::{TraceFault, end_word, push_entry, read_trace, trace_text};
use std::test::Fail;

const DECK: &[u8] = b"MAIN PROG
 NOP
 RETURN
 PEND
R PROG
 PEND
S SRB PGM=MAIN
JOB TASK PGM=MAIN
A TASK PGM=R
 OPER
 CANCEL A
 CANCEL JOB,AT=3
 END
";

// A line of each kind, with and without what may be left out. It is no history.
const ALL_KINDS: &[u8] = b"RTMTRACE 1
0 JOB EXEC MAIN.1 RC=0
1 A EXEC R.1 RC=255
2 JOB ERROR MAIN.3 S0C4
3 JOB ERROR MAIN.2 U0020 REASON=0000BEEF CLUP PERC STAF
4 S LAND CANCEL 4294967295 S222 CLUP
5 S LAND MOTHER 0 S13E PERC
6 A ENTER FRR 4 S0C1 STAF
7 A ENTER MGR 0 S000
8 A ENTER ESTAE 4 S0C1 STAF NOSDWA
9 A ENTER MGR 0 S000 NOSDWA
10 A LEAVE ESTAE 6 RETRY MAIN.3 LOGREC DUMP
11 A LEAVE ESTAI 6 STOP DUMP
12 A LEAVE FRR 6 OVER
13 JOB ARRIVE 1 MERGED
14 JOB BEGIN U4095 DUMP
15 JOB BEGIN SFFF
16 * RELEASE TIMR 999999 *
17 A RELEASE ENQ 0 JOB
18 A DONE S0C1 TASK=LATE STEP=QUEUED
19 A DONE S0C1 STEP=MERGED
20 * PURGE A
21 * MEMEND
END STALLED
";

fn mark(code: Code, reason: Option<u32>, (clup, perc, staf): (bool, bool, bool)) -> Mark {
    Mark {
        code,
        reason,
        clup,
        perc,
        staf,
    }
}

const MAIN_1: Place = Place { prog: 0, op: 1 };

const MAIN_2: Place = Place { prog: 0, op: 2 };

const MAIN_3: Place = Place { prog: 0, op: 3 };

const R_1: Place = Place { prog: 1, op: 1 };

// What the lines say.
fn says() -> [(u16, What); 22] {
    let plain = (false, false, false);
    let code = Code::Sys(0xC1);
    [
        (1, What::Exec { at: MAIN_1, rc: 0 }),
        (2, What::Exec { at: R_1, rc: 255 }),
        (
            1,
            What::Error {
                at: MAIN_3,
                mark: mark(Code::Sys(0xC4), None, plain),
            },
        ),
        (
            1,
            What::Error {
                at: MAIN_2,
                mark: mark(Code::User(20), Some(0xBEEF), (true, true, true)),
            },
        ),
        (
            0,
            What::Land {
                class: Class::Cancel,
                from: u32::MAX,
                mark: mark(Code::Sys(0x222), None, (true, false, false)),
            },
        ),
        (
            0,
            What::Land {
                class: Class::Mother,
                from: 0,
                mark: mark(Code::Sys(0x13E), None, (false, true, false)),
            },
        ),
        (
            2,
            What::Enter {
                kind: Kind::Frr,
                reg: 4,
                mark: mark(code, None, (false, false, true)),
                bare: false,
            },
        ),
        (
            2,
            What::Enter {
                kind: Kind::Mgr,
                reg: 0,
                mark: mark(Code::Sys(0), None, plain),
                bare: false,
            },
        ),
        (
            2,
            What::Enter {
                kind: Kind::Estae,
                reg: 4,
                mark: mark(code, None, (false, false, true)),
                bare: true,
            },
        ),
        (
            2,
            What::Enter {
                kind: Kind::Mgr,
                reg: 0,
                mark: mark(Code::Sys(0), None, plain),
                bare: true,
            },
        ),
        (
            2,
            What::Leave {
                kind: Kind::Estae,
                reg: 6,
                verdict: Verdict::Retry(MAIN_3),
                logrec: true,
                dump: true,
            },
        ),
        (
            2,
            What::Leave {
                kind: Kind::Estai,
                reg: 6,
                verdict: Verdict::Stop,
                logrec: false,
                dump: true,
            },
        ),
        (
            2,
            What::Leave {
                kind: Kind::Frr,
                reg: 6,
                verdict: Verdict::Over,
                logrec: false,
                dump: false,
            },
        ),
        (
            1,
            What::Arrive {
                cmd: 1,
                fate: Fate::Merged,
            },
        ),
        (
            1,
            What::Begin {
                code: Code::User(4095),
                dump: true,
            },
        ),
        (
            1,
            What::Begin {
                code: Code::Sys(0xFFF),
                dump: false,
            },
        ),
        (
            3,
            What::Release {
                class: Res::Timr,
                id: 999_999,
                owner: 3,
            },
        ),
        (
            2,
            What::Release {
                class: Res::Enq,
                id: 0,
                owner: 1,
            },
        ),
        (
            2,
            What::Done {
                code,
                to_task: Some(Fate::Late),
                to_step: Some(Fate::Queued),
            },
        ),
        (
            2,
            What::Done {
                code,
                to_task: None,
                to_step: Some(Fate::Merged),
            },
        ),
        (3, What::Purge { unit: 2 }),
        (3, What::MemEnd),
    ]
}

// Each line is read as what it says, and written again as it stands.
#[test]
fn lines_are_read_and_written(rt: HostRuntime) -> Result<(), Fail> {
    let alloc = rt.alloc();
    let deck = read_deck(alloc, DECK)?;
    let (entries, end) = read_trace(alloc, &deck, ALL_KINDS)?;
    assert!(rt; end == End::Stalled);
    assert!(rt; end_word(end) == b"STALLED".as_slice());
    let says = says();
    assert_eq!(rt; entries.len(), says.len());
    for (entry, (unit, what)) in entries.iter().zip(says.iter()) {
        assert!(rt;
            *entry
                == Entry {
                    unit: *unit,
                    what: *what
                }
        );
    }
    let text = trace_text(alloc, &deck, &entries, end)?;
    assert!(rt; text.as_slice() == ALL_KINDS);

    let mut lines = Vec::new(alloc);
    for entry in &entries {
        push_entry(&mut lines, &deck, entry)?;
    }
    assert!(rt; lines.starts_with(b"JOB EXEC MAIN.1 RC=0A EXEC R.1 RC=255JOB ERROR"));
    Ok(())
}

const BAD_TEXTS: [(&str, u32); 22] = [
    ("", 1),
    ("RTMTRACE 1", 1),
    ("RTMTRACE 2\nEND ENDED\n", 1),
    ("END ENDED\n", 1),
    ("RTMTRACE 1\n", 2),
    ("RTMTRACE 1\nEND ENDED", 2),
    ("RTMTRACE 1\nEND  ENDED\n", 2),
    ("RTMTRACE 1\nEND ENDED\n\n", 3),
    ("RTMTRACE 1\nEND ENDED\n0 JOB EXEC MAIN.1 RC=0\n", 3),
    ("RTMTRACE 1\n0 JOB EXEC MAIN.1 RC=0\n", 3),
    (
        "RTMTRACE 1\n0 JOB EXEC MAIN.1 RC=0\n1 JOB EXEC MAIN.1 RC=0",
        3,
    ),
    ("RTMTRACE 1\n00 JOB EXEC MAIN.1 RC=0\nEND ENDED\n", 2),
    ("RTMTRACE 1\n1 JOB EXEC MAIN.1 RC=0\nEND ENDED\n", 2),
    ("RTMTRACE 1\n0 JOB EXEC MAIN.1 RC=256\nEND ENDED\n", 2),
    ("RTMTRACE 1\n0 JOB EXEC MAIN.4 RC=0\nEND ENDED\n", 2),
    ("RTMTRACE 1\n0 JOB EXEC NONE.1 RC=0\nEND ENDED\n", 2),
    ("RTMTRACE 1\n0 JOB BEGIN U20\nEND ENDED\n", 2),
    ("RTMTRACE 1\n0 JOB BEGIN S0C1 \nEND ENDED\n", 2),
    (
        "RTMTRACE 1\n0 A ENTER ESTAE 0 S0C1 NOSDWA STAF\nEND ENDED\n",
        2,
    ),
    (
        "RTMTRACE 1\n0 A ENTER ESTAE 0 S0C1 NOSDWA NOSDWA\nEND ENDED\n",
        2,
    ),
    ("RTMTRACE 1\n0 JOB ERROR MAIN.1 S0C1 NOSDWA\nEND ENDED\n", 2),
    ("RTMTRACE 1\n0 A LAND CANCEL 0 S222 NOSDWA\nEND ENDED\n", 2),
];

#[test]
fn first_bad_lines_are_named(rt: HostRuntime) -> Result<(), Fail> {
    let alloc = rt.alloc();
    let deck = read_deck(alloc, DECK)?;
    for (text, line) in BAD_TEXTS {
        let bytes = text.as_bytes();
        assert!(rt; bytes.len() <= 1000);
        let answer = read_trace(alloc, &deck, bytes);
        assert!(rt;
            matches!(answer, Err(TraceFault::BadLine { line: found }) if found == line),
            "{text}"
        );
    }
    Ok(())
}
