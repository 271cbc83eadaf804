//! Decks that are read, and the first faults of others.

use super::*;
use std::alloc::{AllocError, Global};
use std::test::Fail;

// The fault of an input that is refused.
fn fault_of(alloc: Global, bytes: &[u8]) -> Option<DeckFault> {
    match read_deck(alloc, bytes) {
        Ok(_) => None,
        Err(fault) => Some(fault),
    }
}

fn is_refused(alloc: Global, bytes: &[u8], card: u32, why: Why) -> bool {
    fault_of(alloc, bytes) == Some(DeckFault::Refused { card, why })
}

// A text so many times.
fn repeated_text(alloc: Global, text: &[u8], times: usize) -> Result<Vec<u8>, AllocError> {
    let mut bytes = Vec::new(alloc);
    for _ in 0..times {
        bytes.extend_from_slice(text)?;
    }
    Ok(bytes)
}

// As many programs, P0 to P9999 by their number.
fn programs(alloc: Global, count: u32) -> Result<Vec<u8>, AllocError> {
    let mut bytes = Vec::new(alloc);
    for i in 0..count {
        bytes.push(b'P')?;
        for place in [1000, 100, 10, 1] {
            bytes.push(b'0' + (i / place % 10) as u8)?;
        }
        bytes.extend_from_slice(b" PROG\n PEND\n")?;
    }
    Ok(bytes)
}

#[test]
fn reads_a_deck(rt: HostRuntime) -> Result<(), Fail> {
    let text =
        b"* all parts\n REGION LIMIT=00030\nMAIN PROG\nL GET DSN,7 a remark\n ATTACHX T,TERM=YES,ESTAI=MAIN\n B L\n PEND\n\
JOB TASK PGM=MAIN\nS SRB PGM=MAIN,TASK=JOB\nT TASK PGM=MAIN\n OPER\n CANCEL T,DUMP=YES,AT=9\n END\n";
    let deck = read_deck(rt.alloc(), text)?;
    assert_eq!(rt;
        (deck.limit, deck.programs.len(), deck.units.len()),
        (30, 1, 3)
    );
    let lines = [
        Line {
            label: Some(Name(*b"L       ")),
            op: Op::Get {
                class: Res::Dsn,
                id: 7,
            },
        },
        Line {
            label: None,
            op: Op::Attachx {
                unit: 2,
                estai: Some(0),
                term: true,
            },
        },
        Line {
            label: None,
            op: Op::Branch {
                label: Name(*b"L       "),
            },
        },
    ];
    assert_eq!(rt; deck.programs[0].lines.as_slice(), lines.as_slice());
    assert_eq!(rt; deck.units[1].related, Some(0));
    let cancel = Command {
        target: 2,
        at: 9,
        dump: true,
    };
    assert_eq!(rt; deck.commands.as_slice(), [cancel].as_slice());
    Ok(())
}

#[test]
fn names_the_first_fault(rt: HostRuntime) {
    let rows: [(&[u8], u32, Why); 26] = [
        (b"", 1, Why::NoJobStep),
        (b"M PROG\n \t\n PEND", 2, Why::BadByte),
        (b"M PROG\n9X NOP\n PEND", 2, Why::BadCard),
        (b"M PROG\n FROB\n PEND", 2, Why::UnknownOp),
        (b"M PROG\n PEND\n PEND", 3, Why::WrongPlace),
        (
            b"M PROG\n PEND\nJ TASK PGM=M\nJ TASK PGM=M\n END",
            4,
            Why::DuplicateName,
        ),
        (
            b"M PROG\n PEND\nJ TASK PGM=M\nJ SRB PGM=M\n END",
            4,
            Why::DuplicateName,
        ),
        (b"M PROG\n PEND\n END", 3, Why::NoJobStep),
        (b"M PROG\n PEND\n\nJ TASK PGM=M\n*\n", 6, Why::NoEnd),
        (
            b"M PROG\n LINK NONE\n PEND\nJ TASK PGM=M\n END",
            2,
            Why::UnknownName,
        ),
        (
            b"M PROG\n LINK NONE\n ABEND U4096\n PEND\nJ TASK PGM=M\n END",
            3,
            Why::BadOperand,
        ),
        (
            b"M PROG\n B GO\n PEND\nN PROG\nGO NOP\n PEND\nJ TASK PGM=M\n END",
            2,
            Why::UnknownLabel,
        ),
        (
            b"M PROG\n SETRP RETADDR=GO\n PEND\nJ TASK PGM=M\n END",
            2,
            Why::UnknownLabel,
        ),
        (
            b"M PROG\nL NOP\nL NOP\n PEND\nJ TASK PGM=M\n END",
            3,
            Why::DuplicateName,
        ),
        (b" PROG\n PEND", 1, Why::BadCard),
        (b"M PROG\n SETRP\n PEND", 2, Why::BadOperand),
        (
            b"M PROG\n ABEND U1,DUMP=NO,DUMP=NO\n PEND",
            2,
            Why::BadOperand,
        ),
        (
            b"M PROG\n ATTACHX J,TERM=NO\n PEND\nJ TASK PGM=M\n END",
            2,
            Why::BadOperand,
        ),
        (
            b"M PROG\n SCHEDULE J\n PEND\nJ TASK PGM=M\n END",
            2,
            Why::UnknownName,
        ),
        (b"M PROG\n PEND\n REGION LIMIT=5\n", 3, Why::WrongPlace),
        (
            b"M PROG\n PEND\nJ TASK PGM=M\n CANCEL J\n END",
            4,
            Why::WrongPlace,
        ),
        (
            b"M PROG\n PEND\nJ TASK PGM=M\n OPER\nN PROG\n PEND\n END",
            5,
            Why::WrongPlace,
        ),
        (
            b"M PROG\n PEND\nJ TASK PGM=M\n END\n END",
            5,
            Why::WrongPlace,
        ),
        (
            b"M PROG\n PEND\nJ TASK PGM=M\n END\n FROB",
            5,
            Why::UnknownOp,
        ),
        (b"M PROG\n PEND\nJ TASK PGM=M\n END\n*\n9X", 6, Why::BadCard),
        (b"M PROG\n PEND\nJ TASK PGM=N\n END", 3, Why::UnknownName),
    ];
    for (bytes, card, why) in rows {
        assert!(rt; is_refused(rt.alloc(), bytes, card, why), "{bytes:?}");
    }
}

// The limit, whether routines get an SDWA, and what a card does; or the fault.
type Reading = Result<(u32, bool, Option<Op>), DeckFault>;

// What is read of a deck with that first card and that card of its only program.
fn reading_of(alloc: Global, region: &[u8], card: &[u8]) -> Result<Reading, AllocError> {
    let mut bytes = Vec::new(alloc);
    bytes.extend_from_slice(region)?;
    bytes.extend_from_slice(b"\nM PROG\nGO NOP\n")?;
    bytes.extend_from_slice(card)?;
    bytes.extend_from_slice(b"\n PEND\nJ TASK PGM=M\n END\n")?;
    Ok(match read_deck(alloc, &bytes) {
        Err(fault) => Err(fault),
        Ok(deck) => {
            let line = deck
                .programs
                .first()
                .and_then(|program| program.lines.get(1));
            Ok((deck.limit, deck.sdwa, line.map(|line| line.op)))
        }
    })
}

fn nop(limit: u32, sdwa: bool) -> Reading {
    Ok((limit, sdwa, Some(Op::Nop)))
}

fn ret15(rc: u8, label: Option<Name>) -> Reading {
    Ok((20_000, true, Some(Op::Ret15 { rc, label })))
}

fn refused(card: u32, why: Why) -> Reading {
    Err(DeckFault::Refused { card, why })
}

#[test]
fn reads_region_and_ret15(rt: HostRuntime) -> Result<(), Fail> {
    let rows: [(&[u8], &[u8], Reading); 19] = [
        (b"*", b" NOP", nop(20_000, true)),
        (b" REGION SDWA=YES", b" NOP", nop(20_000, true)),
        (b" REGION SDWA=NO", b" NOP", nop(20_000, false)),
        (b" REGION LIMIT=7", b" NOP", nop(7, true)),
        (b" REGION LIMIT=7,SDWA=NO", b" NOP", nop(7, false)),
        (b" REGION SDWA=NO,LIMIT=7", b" NOP", nop(7, false)),
        (b" REGION", b" NOP", refused(1, Why::BadOperand)),
        (b" REGION SDWA=MAYBE", b" NOP", refused(1, Why::BadOperand)),
        (
            b" REGION SDWA=NO,SDWA=NO",
            b" NOP",
            refused(1, Why::BadOperand),
        ),
        (b" REGION NO", b" NOP", refused(1, Why::BadOperand)),
        (b" REGION LIMIT=0", b" NOP", refused(1, Why::BadOperand)),
        (
            b"*",
            b" RET15 4,RETADDR=GO",
            ret15(4, Some(Name(*b"GO      "))),
        ),
        (
            b"*",
            b" RET15 04,RETADDR=GO",
            ret15(4, Some(Name(*b"GO      "))),
        ),
        (b"*", b" RET15 16", ret15(16, None)),
        (b"*", b" RET15", refused(4, Why::BadOperand)),
        (b"*", b" RET15 5", refused(4, Why::BadOperand)),
        (b"*", b" RET15 4,GO", refused(4, Why::BadOperand)),
        (b"*", b" RET15 RC=4", refused(4, Why::BadOperand)),
        (
            b"*",
            b" RET15 4,RETADDR=NONE",
            refused(4, Why::UnknownLabel),
        ),
    ];
    for (region, card, wanted) in rows {
        assert!(rt;
            reading_of(rt.alloc(), region, card)? == wanted,
            "{region:?} {card:?}"
        );
    }
    Ok(())
}

#[test]
fn keeps_limits(rt: HostRuntime) -> Result<(), Fail> {
    let bytes = repeated_text(rt.alloc(), b"*\n", 10_001)?;
    assert!(rt; is_refused(rt.alloc(), &bytes, 10_001, Why::OverLimit));
    let bytes = programs(rt.alloc(), 256)?;
    assert!(rt; is_refused(rt.alloc(), &bytes, 513, Why::NoJobStep));
    let bytes = programs(rt.alloc(), 257)?;
    assert!(rt; is_refused(rt.alloc(), &bytes, 513, Why::OverLimit));
    Ok(())
}

fn is_send<T: Send>() {}

#[test]
fn types_can_be_sent() {
    is_send::<DeckFault>();
    is_send::<Deck>();
}
