//! Decks to run, and the managers of a run.

ghost use Rattle.std.specs.Prelude.{◌≡◌, IfOk, []};
ghost use Rattle.rtm_desk.specs.Told.{told_by, told_to};

use rtm_crew::Region;
use rtm_crew_threads::{Gate, Starts, drive_by};
use rtm_deck::read_deck;
use rtm_desk::MemManager;
use rtm_model::{End, Res, What};
use rtm_trace_judge::judge;
use std::alloc::{AllocError, Global};
use std::sync::Wait;
use std::thread::Threads;

/// A night's batch: a retry, an abend with a dump, and a cancel. Its units are JOB, READ, CALC and PRINT.
pub(crate) const BATCH: &[u8] = b" REGION LIMIT=20000
MAIN PROG
 GET ENQ,100
 ESTAEX CT,PGM=MAINREC,TERM=YES
 ATTACHX READ,ESTAI=WATCH
 ATTACHX CALC,ESTAI=WATCH,TERM=YES
 ATTACHX PRINT
 WAITT READ
 WAITT CALC
 WAITT PRINT
 FREE ENQ,100
 RETURN
 PEND
READER PROG
 GET DSN,1
 ESTAEX CT,PGM=READREC
 ABEND S0C4,REASON=10
GOON FREE DSN,1
 POST 1
 RETURN
 PEND
CALCPGM PROG
 GET STOR,64
 WAIT 2          NEVER POSTED
 RETURN
 PEND
PRINTER PROG
 GET DSN,2
 WAIT 1
 ABEND U0020,DUMP=YES
 PEND
READREC PROG
 SETRP RC=4,RETADDR=GOON,RECORD=YES
 PEND
MAINREC PROG
 PEND
WATCH PROG
 NOP
 PEND
JOB TASK PGM=MAIN
READ TASK PGM=READER
CALC TASK PGM=CALCPGM
PRINT TASK PGM=PRINTER
 OPER
 CANCEL CALC,AT=30
 END
";

/// The four managers, in the order of their classes.
pub(crate) fn managers(alloc: Global) -> Result<Vec<MemManager>, AllocError>
    ensures { IfOk result
        (λ ms. told_to (λ m. m.class) (λ m. m.released) ms.items ≡ told_by []) }
{
    let managers = vec![in alloc;
        MemManager::new(alloc, Res::Enq),
        MemManager::new(alloc, Res::Stor),
        MemManager::new(alloc, Res::Dsn),
        MemManager::new(alloc, Res::Timr),
    ]?;
    Ok(managers)
}

/// Runs a deck. None where there is no memory, or the text is no deck.
pub(crate) fn run<G: Gate, S: Starts, R: Threads + Wait + Sync>(
    rt: &R,
    alloc: Global,
    text: &[u8],
    gate: &G,
    starts: &S,
) -> Option<(Region<MemManager>, End)> {
    let deck = read_deck(alloc, text).ok()?;
    let managers = managers(alloc).ok()?;
    drive_by::<MemManager, G, S, R>(rt, alloc, deck, managers, gate, starts).ok()
}

/// Whether the judge takes the trace for a history of the deck with that end.
pub(crate) fn is_verified(
    alloc: Global,
    text: &[u8],
    region: &Region<MemManager>,
    end: End,
) -> bool {
    match read_deck(alloc, text) {
        Ok(deck) => judge(alloc, &deck, region.system().trace(), end).is_ok(),
        Err(_) => false,
    }
}

/// Whether the managers were told of as many releases as the trace has.
pub(crate) fn are_told(region: Region<MemManager>) -> bool {
    let (system, managers) = region.into_parts();
    let mut left: u64 = 0;
    for manager in &managers {
        left = left.wrapping_add(manager.released().len() as u64);
    }
    for entry in system.trace() {
        if matches!(entry.what, What::Release { .. }) {
            left = left.wrapping_sub(1);
        }
    }
    left == 0
}
