ghost use Rattle.rtm_board.specs.All.{AreAll};

use rtm_board::{Notes, all_notes};
use rtm_deck::read_deck;
use rtm_model::{End, Entry, What};
use rtm_system::{Arrived, Stepped, System};
use rtm_trace::trace_text;
use std::alloc::Global;
use std::process::Abort;
use std::test::Fail;

// A batch of four tasks: a retry, an abend with a dump, and a cancel that an ESTAI routine sees. It arrives before its
// entry, since nobody goes on.
const BATCH: &str = "MAIN PROG
 GET ENQ,100
 ESTAEX CT,PGM=MAINREC,TERM=YES
 ATTACHX READ,ESTAI=WATCH
 ATTACHX CALC,ESTAI=WATCH,TERM=YES
 ATTACHX PRINT
 WAITT READ
 WAITT CALC
 WAITT PRINT
 FREE ENQ,100
 RETURN
 PEND
READER PROG
 GET DSN,1
 ESTAEX CT,PGM=READREC
 ABEND S0C4,REASON=10
GOON FREE DSN,1
 POST 1
 RETURN
 PEND
CALCPGM PROG
 GET STOR,64
 WAIT 2
 RETURN
 PEND
PRINTER PROG
 GET DSN,2
 WAIT 1
 ABEND U0020,DUMP=YES
 PEND
READREC PROG
 SETRP RC=4,RETADDR=GOON,RECORD=YES
 PEND
MAINREC PROG
 PEND
WATCH PROG
 NOP
 PEND
JOB TASK PGM=MAIN
READ TASK PGM=READER
CALC TASK PGM=CALCPGM
PRINT TASK PGM=PRINTER
 OPER
 CANCEL CALC,AT=30
 END
";

const BATCH_TRACE: &str = "RTMTRACE 1
0 JOB EXEC MAIN.1 RC=0
1 JOB EXEC MAIN.2 RC=0
2 JOB EXEC MAIN.3 RC=0
3 READ EXEC READER.1 RC=0
4 JOB EXEC MAIN.4 RC=0
5 READ EXEC READER.2 RC=0
6 CALC EXEC CALCPGM.1 RC=0
7 JOB EXEC MAIN.5 RC=0
8 READ ERROR READER.3 S0C4 REASON=00000010
9 PRINT EXEC PRINTER.1 RC=0
10 READ ENTER ESTAE 5 S0C4 REASON=00000010
11 READ EXEC READREC.1 RC=0
12 READ LEAVE ESTAE 5 RETRY READER.4 LOGREC
13 READ EXEC READER.4 RC=0
14 READ EXEC READER.5 RC=0
15 PRINT EXEC PRINTER.2 RC=0
16 READ BEGIN S000
17 PRINT ERROR PRINTER.3 U0020
18 READ DONE S000
19 PRINT BEGIN U0020 DUMP
20 JOB EXEC MAIN.6 RC=0
21 PRINT RELEASE DSN 2 PRINT
22 PRINT DONE U0020
23 CALC ARRIVE 0 QUEUED
24 CALC LAND CANCEL 23 S222 CLUP
25 CALC ENTER ESTAI 4 S222 CLUP
26 CALC EXEC WATCH.1 RC=0
27 CALC LEAVE ESTAI 4 PERC
28 CALC BEGIN S222
29 CALC RELEASE STOR 64 CALC
30 CALC DONE S222
31 JOB EXEC MAIN.7 RC=0
32 JOB EXEC MAIN.8 RC=0
33 JOB EXEC MAIN.9 RC=0
34 JOB BEGIN S000
35 JOB DONE S000
36 * MEMEND
END ENDED
";

// A retry that never gets on.
const LOOP: &str = " REGION LIMIT=6
MAIN PROG
 ESTAEX CT,PGM=FIX
AGAIN ABEND S0C4
 PEND
FIX PROG
 SETRP RC=4,RETADDR=AGAIN
 PEND
JOB TASK PGM=MAIN
 END
";

const LOOP_TRACE: &str = "RTMTRACE 1
0 JOB EXEC MAIN.1 RC=0
1 JOB ERROR MAIN.2 S0C4
2 JOB ENTER ESTAE 0 S0C4
3 JOB EXEC FIX.1 RC=0
4 JOB LEAVE ESTAE 0 RETRY MAIN.2
5 JOB ERROR MAIN.2 S0C4
END LIMIT
";

// The event is never posted.
const STALL: &str = "MAIN PROG
 ATTACHX A
 WAITT A
 PEND
WAITER PROG
 NOP
 WAIT 1
 PEND
JOB TASK PGM=MAIN
A TASK PGM=WAITER
 END
";

const STALL_TRACE: &str = "RTMTRACE 1
0 JOB EXEC MAIN.1 RC=0
1 A EXEC WAITER.1 RC=0
END STALLED
";

// The unit steps by itself.
fn step(rt: &impl Abort, system: &mut System, unit: u16) -> Stepped {
    assert!(rt; unit <= system.deck().unit_count());
    system.step(unit)
}

// The entry's unit makes it by itself, or its command lets it arrive, once.
fn make(rt: &impl Abort, system: &mut System, notes: &mut Notes, entry: Entry) {
    match entry.what {
        What::Arrive { cmd, .. } => {
            let note = notes
                .pick(cmd)
                .expect(rt, "the note of each command is there");
            assert_eq!(rt; system.arrive(&note), Arrived::Made(entry));
            assert_eq!(rt; system.arrive(&note), Arrived::NotYet);
            notes.put_back(note);
        }
        _ => assert_eq!(rt; step(rt, system, entry.unit), Stepped::Made(entry)),
    }
}

// Who stands where a turn is and isn't found by it has no entry.
fn pass_over(rt: &impl Abort, system: &mut System, turn: u16, entry: Entry) {
    let arrives = matches!(entry.what, What::Arrive { .. });
    if !arrives && turn != entry.unit {
        assert_eq!(rt; step(rt, system, turn), Stepped::NotReady);
    }
}

// The history goes on.
fn goes_on(rt: &impl Abort, system: &System) {
    assert!(rt; !system.is_over());
    assert!(rt; system.end().is_none());
}

// What one system makes in turns the other makes in steps.
fn runs_beside(
    rt: &impl Abort,
    alloc: Global,
    text: &str,
    trace: &str,
    end: End,
    last: Stepped,
) -> Result<(), Fail> {
    let deck = read_deck(alloc, text.as_bytes())?;
    let mut shown = all_notes(alloc, &deck)?;
    let mut stepping = System::new(alloc, deck.copy(alloc)?)?;
    let mut notes = all_notes(alloc, &deck)?;
    let mut turning = System::new(alloc, deck)?;
    let mut turn = 0;
    'turns: while let Ok(entry) = turning.turn(turn) {
        goes_on(rt, &stepping);
        pass_over(rt, &mut stepping, turn, entry);
        make(rt, &mut stepping, &mut shown, entry);
        turn = turning.turn_after(turn, &entry);
        turning.make_next(&mut notes, entry);
    }
    assert!(rt; turning.turn(turn).err() == Some(end));
    assert!(rt; stepping.end() == Some(end) && turning.end() == Some(end));
    assert!(rt; stepping.is_over() == (end != End::Limit));
    assert_eq!(rt; step(rt, &mut stepping, 0), last);
    let made = trace_text(alloc, stepping.deck(), stepping.trace(), end)?;
    assert!(rt; made.as_slice() == trace.as_bytes());
    Ok(())
}

#[test]
fn steps_make_what_turns_find(rt: HostRuntime) -> Result<(), Fail> {
    runs_beside(
        &rt,
        rt.alloc(),
        BATCH,
        BATCH_TRACE,
        End::Ended,
        Stepped::IsOver,
    )
}

#[test]
fn steps_end_at_the_limit(rt: HostRuntime) -> Result<(), Fail> {
    runs_beside(
        &rt,
        rt.alloc(),
        LOOP,
        LOOP_TRACE,
        End::Limit,
        Stepped::AtLimit,
    )
}

#[test]
fn steps_end_where_a_run_stalls(rt: HostRuntime) -> Result<(), Fail> {
    runs_beside(
        &rt,
        rt.alloc(),
        STALL,
        STALL_TRACE,
        End::Stalled,
        Stepped::IsOver,
    )
}
