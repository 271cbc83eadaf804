//! Histories of one deck, with their judgements.

use crate::{JudgeFault, judge};
use rtm_codes::Code;
use rtm_deck::read_deck;
use rtm_model::{End, Entry, Place, What};
use std::test::Fail;

const DECK: &[u8] = b"MAIN PROG
 NOP
 PEND
JOB TASK PGM=MAIN
 END
";

fn exec_entry(rc: u8) -> Entry {
    let at = Place { prog: 0, op: 1 };
    let what = What::Exec { at, rc };
    Entry { unit: 0, what }
}

fn begin_entry(unit: u16) -> Entry {
    let what = What::Begin {
        code: Code::Sys(0),
        dump: false,
    };
    Entry { unit, what }
}

fn done_entry(unit: u16) -> Entry {
    let what = What::Done {
        code: Code::Sys(0),
        to_task: None,
        to_step: None,
    };
    Entry { unit, what }
}

fn not_legal_answer(index: u32, wanted: Option<Entry>) -> Result<(), JudgeFault> {
    Err(JudgeFault::NotLegal { index, wanted })
}

fn ends(stated: End, found: Option<End>) -> Result<(), JudgeFault> {
    Err(JudgeFault::WrongEnd { stated, found })
}

#[test]
fn judges_a_history(rt: HostRuntime) -> Result<(), Fail> {
    let memory_end = Entry {
        unit: 1,
        what: What::MemEnd,
    };
    // The deck's one history.
    let history = [exec_entry(0), begin_entry(0), done_entry(0), memory_end];
    let over = [
        exec_entry(0),
        begin_entry(0),
        done_entry(0),
        memory_end,
        memory_end,
    ];
    let other_code = [exec_entry(4), begin_entry(0)];
    let other_unit = [exec_entry(0), begin_entry(0), done_entry(1)];
    let no_unit = [exec_entry(0), begin_entry(9)];
    let rows: [(&[Entry], End, Result<(), JudgeFault>); 10] = [
        (&history, End::Ended, Ok(())),
        (&history, End::Stalled, ends(End::Stalled, Some(End::Ended))),
        (&history[..3], End::Ended, ends(End::Ended, None)),
        (&[], End::Limit, ends(End::Limit, None)),
        (
            &history[1..],
            End::Ended,
            not_legal_answer(0, Some(exec_entry(0))),
        ),
        (&over, End::Ended, not_legal_answer(4, None)),
        (
            &other_code,
            End::Ended,
            not_legal_answer(0, Some(exec_entry(0))),
        ),
        (&other_unit, End::Ended, not_legal_answer(2, None)),
        (&no_unit, End::Ended, not_legal_answer(1, None)),
        (&history[3..], End::Ended, not_legal_answer(0, None)),
    ];
    let deck = read_deck(rt.alloc(), DECK)?;
    for (entries, end, answer) in rows {
        assert_eq!(rt;
            judge(rt.alloc(), &deck, entries, end),
            answer,
            "{entries:?}"
        );
    }
    Ok(())
}
