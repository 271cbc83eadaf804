//! Writing the cards.

ghost use Rattle.std.specs.Prelude.{◌≡◌, ◌<◌, ◌≤◌, [], ◌∷◌, ◌++◌, codes, map, IfOk, OnOk};
ghost use Rattle.std.specs.List.{flat_map};
ghost use Rattle.rtm_cards.specs.Spelling.{line_with_feed};
ghost use Rattle.rtm_deck_load.specs.Counts.{one_to};
ghost use Rattle.rtm_deck_load.specs.Text.{empty_cards, keep_cards, load_text, main_cards, numbered_card, round_cards, sub_cards, unit_cards, work_cards};

use rtm_codes::NoMemory;
use rtm_text::{push_bytes, push_decimal};
use std::alloc::Global;

// How many recovery routines each task makes.
const ROUTINES: u8 = 40;

/// The cards of the deck with that many tasks beside the job step task, at most 60, each with its line feed. The only
/// error is want of memory.
pub(crate) fn load_text(alloc: Global, tasks: u8) -> Result<Vec<u8>, NoMemory>
    requires { tasks ≤ 60 }
    ensures { IfOk result (λ text. text.items ≡ load_text tasks) }
{
    let mut text = Vec::new(alloc);
    push_card(&mut text, b" REGION LIMIT=100000")?;
    push_main(&mut text, tasks)?;
    push_work(&mut text)?;
    push_sub(&mut text)?;
    push_routines(&mut text, ROUTINES)?;
    push_empty_programs(&mut text)?;
    push_units(&mut text, tasks)?;
    push_card(&mut text, b" END")?;
    Ok(text)
}

// MAIN, which attaches each task and waits for each.
fn push_main(out: &mut Vec<u8>, tasks: u8) -> Result<(), NoMemory>
    requires { tasks ≤ 60 }
    ensures { OnOk result
        (out.new.items ≡ out.old.items ++ flat_map line_with_feed (main_cards tasks)) }
{
    push_card(out, b"MAIN PROG")?;
    push_card(out, b" GET ENQ,0")?;
    push_numbered_cards(out, b" ATTACHX T", b",ESTAI=WATCH", tasks)?;
    push_numbered_cards(out, b" WAITT T", b"", tasks)?;
    push_card(out, b" PEND")
}

// WORK, which each task runs.
fn push_work(out: &mut Vec<u8>) -> Result<(), NoMemory>
    ensures { OnOk result (out.new.items ≡ out.old.items ++ flat_map line_with_feed work_cards) }
{
    push_card(out, b"WORK PROG")?;
    push_card(out, b" GET STOR,1")?;
    push_rounds(out, ROUTINES)?;
    push_card(out, b" ABEND U2")?;
    push_card(out, b" PEND")
}

// The rounds of WORK: each makes a recovery routine and calls SUB, which ends abnormally.
fn push_rounds(out: &mut Vec<u8>, rounds: u8) -> Result<(), NoMemory>
    requires { rounds ≤ 60 }
    ensures { OnOk result
        (out.new.items ≡ out.old.items
        ++ flat_map line_with_feed (flat_map round_cards (one_to rounds))) }
{
    for done in 0..rounds {
        push_round(out, done + 1)?;
    }
    Ok(())
}

fn push_round(out: &mut Vec<u8>, round: u8) -> Result<(), NoMemory>
    requires { round ≤ 60 }
    ensures { OnOk result
        (out.new.items ≡ out.old.items ++ flat_map line_with_feed (round_cards round)) }
{
    push_numbered_card(out, b" ESTAEX CT,PGM=KEEP", b"", round)?;
    push_card(out, b" LINK SUB")?;
    push_numbered_card(out, b"BACK", b" NOP", round)
}

// SUB, which ends abnormally under an FRR that percolates.
fn push_sub(out: &mut Vec<u8>) -> Result<(), NoMemory>
    ensures { OnOk result (out.new.items ≡ out.old.items ++ flat_map line_with_feed sub_cards) }
{
    push_card(out, b"SUB PROG")?;
    push_card(out, b" GET DSN,2")?;
    push_card(out, b" SETFRR A,PGM=PASS")?;
    push_card(out, b" ABEND S0C4")?;
    push_card(out, b" PEND")
}

// The recovery routines that retry.
fn push_routines(out: &mut Vec<u8>, routines: u8) -> Result<(), NoMemory>
    requires { routines ≤ 60 }
    ensures { OnOk result
        (out.new.items ≡ out.old.items
        ++ flat_map line_with_feed (flat_map keep_cards (one_to routines))) }
{
    for done in 0..routines {
        push_routine(out, done + 1)?;
    }
    Ok(())
}

fn push_routine(out: &mut Vec<u8>, routine: u8) -> Result<(), NoMemory>
    requires { routine ≤ 60 }
    ensures { OnOk result
        (out.new.items ≡ out.old.items ++ flat_map line_with_feed (keep_cards routine)) }
{
    push_numbered_card(out, b"KEEP", b" PROG", routine)?;
    push_numbered_card(out, b" SETRP RC=4,RETADDR=BACK", b",REMREC=YES", routine)?;
    push_card(out, b" PEND")
}

// The recovery routines that do nothing, and so percolate.
fn push_empty_programs(out: &mut Vec<u8>) -> Result<(), NoMemory>
    ensures { OnOk result (out.new.items ≡ out.old.items ++ flat_map line_with_feed empty_cards) }
{
    push_card(out, b"PASS PROG")?;
    push_card(out, b" PEND")?;
    push_card(out, b"WATCH PROG")?;
    push_card(out, b" PEND")
}

fn push_units(out: &mut Vec<u8>, tasks: u8) -> Result<(), NoMemory>
    requires { tasks ≤ 60 }
    ensures { OnOk result
        (out.new.items ≡ out.old.items ++ flat_map line_with_feed (unit_cards tasks)) }
{
    push_card(out, b"JOB TASK PGM=MAIN")?;
    push_numbered_cards(out, b"T", b" TASK PGM=WORK", tasks)
}

// A card for each number from 1 to `most`.
fn push_numbered_cards(
    out: &mut Vec<u8>,
    front: &[u8],
    back: &[u8],
    most: u8,
) -> Result<(), NoMemory>
    requires { most ≤ 60 }
    ensures { OnOk result (out.new.items
        ≡ out.old.items
        ++ flat_map line_with_feed (map (numbered_card front.now back.now) (one_to most))) }
{
    for done in 0..most {
        push_numbered_card(out, front, back, done + 1)?;
    }
    Ok(())
}

// A card with a number between two texts.
fn push_numbered_card(
    out: &mut Vec<u8>,
    front: &[u8],
    back: &[u8],
    number: u8,
) -> Result<(), NoMemory>
    requires { number ≤ 60 }
    ensures { OnOk result
        (out.new.items ≡ out.old.items
        ++ line_with_feed (numbered_card front.now back.now number)) }
{
    push_bytes(out, front)?;
    push_decimal(out, u64::from(number))?;
    push_card(out, back)
}

fn push_card(out: &mut Vec<u8>, card: &[u8]) -> Result<(), NoMemory>
    ensures { OnOk result (out.new.items ≡ out.old.items ++ line_with_feed card.now) }
{
    push_bytes(out, card)?;
    push_bytes(out, b"\n")
}
