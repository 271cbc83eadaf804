//! Inputs, the cards that are cut from them, and the first fault of cutting.

use super::*;
use std::alloc::{AllocError, Global};
use std::test::Fail;

// A card's number, name, operation and operands.
type Row = (u32, &'static str, &'static str, &'static [&'static str]);

fn is_text(bytes: &[u8], span: Span, text: &str) -> bool {
    bytes.get(span.from as usize..span.to as usize) == Some(text.as_bytes())
}

fn says(bytes: &[u8], card: &Card, row: &Row) -> bool {
    let (number, name, op, operands) = *row;
    card.number == number
        && is_text(bytes, card.name, name)
        && is_text(bytes, card.op, op)
        && card.operands.len() == operands.len()
        && card
            .operands
            .iter()
            .zip(operands)
            .all(|(span, text)| is_text(bytes, *span, text))
}

// Whether the input has no fault, and says the rows.
fn has_rows(alloc: Global, bytes: &[u8], rows: &[Row]) -> Result<bool, CardFault> {
    let cut = cut_cards(alloc, bytes)?;
    for (card, row) in cut.cards.iter().zip(rows) {
        if !says(bytes, card, row) {
            return Ok(false);
        }
    }
    Ok(cut.fault.is_none() && cut.cards.len() == rows.len())
}

// How many cards stand before the fault, and how many of them are kept; the fault.
fn outcome(alloc: Global, bytes: &[u8]) -> Result<(u32, usize, Option<CutFault>), CardFault> {
    let cut = cut_cards(alloc, bytes)?;
    Ok((cut.lines, cut.cards.len(), cut.fault))
}

// The start of an input, and what fills it up to a length.
fn text_of_length(
    alloc: Global,
    start: &[u8],
    fill: u8,
    len: usize,
) -> Result<Vec<u8>, AllocError> {
    let mut bytes = vec![in alloc; fill; len]?;
    for (byte, first) in bytes.iter_mut().zip(start) {
        *byte = *first;
    }
    Ok(bytes)
}

#[test]
fn cuts_a_deck(rt: HostRuntime) -> Result<(), Fail> {
    let deck = b"MAIN PROG\n NOP\n RETURN\n PEND\nJOB TASK PGM=MAIN\n END\n";
    let rows: [Row; 6] = [
        (1, "MAIN", "PROG", &[]),
        (2, "", "NOP", &[]),
        (3, "", "RETURN", &[]),
        (4, "", "PEND", &[]),
        (5, "JOB", "TASK", &["PGM=MAIN"]),
        (6, "", "END", &[]),
    ];
    assert!(rt; has_rows(rt.alloc(), deck, &rows)?);
    assert!(rt; has_rows(rt.alloc(), &deck[..deck.len() - 1], &rows)?);
    Ok(())
}

#[test]
fn reads_fields(rt: HostRuntime) -> Result<(), Fail> {
    let cases: [(&[u8], Row); 7] = [
        (
            b"* comment\n\n   \nA$ GET  ENQ,7  held",
            (4, "A$", "GET", &["ENQ", "7"]),
        ),
        (b" X A,,B", (1, "", "X", &["A", "", "B"])),
        (b" X ,\n", (1, "", "X", &["", ""])),
        (b" X A, B\n", (1, "", "X", &["A", ""])),
        (b"L X\n", (1, "L", "X", &[])),
        (b"L   X  \n", (1, "L", "X", &[])),
        (b"#@$45678 1*2 =", (1, "#@$45678", "1*2", &["="])),
    ];
    for (bytes, row) in cases {
        assert!(rt; has_rows(rt.alloc(), bytes, &[row])?, "{bytes:?}");
    }
    Ok(())
}

#[test]
fn counts_cards(rt: HostRuntime) -> Result<(), Fail> {
    let cases: [(&[u8], u32, usize); 8] = [
        (b"", 0, 0),
        (b"\n", 1, 0),
        (b" X", 1, 1),
        (b" X\n", 1, 1),
        (b" X\n\n", 2, 1),
        (b"*A*", 1, 0),
        (b" ~", 1, 1),
        (b"A2345678 X", 1, 1),
    ];
    for (bytes, lines, cards) in cases {
        assert_eq!(rt;
            outcome(rt.alloc(), bytes)?,
            (lines, cards, None),
            "{bytes:?}"
        );
    }
    Ok(())
}

#[test]
fn names_the_first_fault(rt: HostRuntime) -> Result<(), Fail> {
    let cases: [(&[u8], usize, u32, CutWhy); 10] = [
        (b" X\n X\tY\n9X NOP", 1, 2, CutWhy::BadByte),
        (b" X\n* \x7f", 1, 2, CutWhy::BadByte),
        (b" X\r\n", 0, 1, CutWhy::BadByte),
        (b"9X \xff", 0, 1, CutWhy::BadByte),
        (b"9X NOP", 0, 1, CutWhy::BadCard),
        (b"\n*\n X\na NOP", 1, 4, CutWhy::BadCard),
        (b"A23456789 X", 0, 1, CutWhy::BadCard),
        (b"A* X", 0, 1, CutWhy::BadCard),
        (b"A", 0, 1, CutWhy::BadCard),
        (b"A  \n", 0, 1, CutWhy::BadCard),
    ];
    for (bytes, cards, card, why) in cases {
        let (lines, kept, fault) = outcome(rt.alloc(), bytes)?;
        assert_eq!(rt; fault, Some(CutFault { card, why }), "{bytes:?}");
        assert_eq!(rt; (lines.saturating_add(1), kept), (card, cards), "{bytes:?}");
    }
    Ok(())
}

#[test]
fn keeps_the_length_of_a_card(rt: HostRuntime) -> Result<(), Fail> {
    let starts: [(&[u8], usize); 3] = [(b"L NOP", 1), (b"*", 0), (b" ", 0)];
    let why = CutWhy::BadCard;
    for (start, cards) in starts {
        let card = text_of_length(rt.alloc(), start, b' ', 80)?;
        assert_eq!(rt; outcome(rt.alloc(), &card)?, (1, cards, None));
        let card = text_of_length(rt.alloc(), start, b' ', 81)?;
        assert_eq!(rt;
            outcome(rt.alloc(), &card)?,
            (0, 0, Some(CutFault { card: 1, why }))
        );
    }
    Ok(())
}

#[test]
fn keeps_the_number_of_cards(rt: HostRuntime) -> Result<(), Fail> {
    let mut bytes = Vec::new(rt.alloc());
    for _ in 0..10_000 {
        bytes.extend_from_slice(b"*\n")?;
    }
    assert_eq!(rt; outcome(rt.alloc(), &bytes)?, (10_000, 0, None));
    bytes.push(b'*')?;
    let fault = CutFault {
        card: 10_001,
        why: CutWhy::OverLimit,
    };
    assert_eq!(rt; outcome(rt.alloc(), &bytes)?, (10_000, 0, Some(fault)));
    Ok(())
}

#[test]
fn keeps_the_number_of_bytes(rt: HostRuntime) -> Result<(), Fail> {
    let cases: [(&[u8], usize, u32, u32, CutWhy); 3] = [
        (b"*", MOST_BYTES + 1, 0, 1, CutWhy::TooLong),
        (b"*\n9X\n", MOST_BYTES + 1, 0, 3, CutWhy::TooLong),
        (b"*\n9X\n", MOST_BYTES, 1, 2, CutWhy::BadCard),
    ];
    for (start, len, lines, card, why) in cases {
        let bytes = text_of_length(rt.alloc(), start, b'*', len)?;
        assert_eq!(rt;
            outcome(rt.alloc(), &bytes)?,
            (lines, 0, Some(CutFault { card, why }))
        );
    }
    Ok(())
}

#[test]
fn tells_names(rt: HostRuntime) {
    let names: [&[u8]; 5] = [b"A", b"Z9", b"@", b"#$@", b"ABCDEFGH"];
    for name in names {
        assert!(rt; is_name(name), "{name:?}");
    }
    let others: [&[u8]; 7] = [b"", b"9", b"a", b"A B", b"A-", b"A*", b"ABCDEFGHI"];
    for other in others {
        assert!(rt; !is_name(other), "{other:?}");
    }
}

#[test]
fn reads_spans(rt: HostRuntime) {
    let span = Span { from: 1, to: 3 };
    assert_eq!(rt; span.text(b"ABCD"), b"BC".as_slice());
    assert!(rt; !span.is_empty());
    assert!(rt; Span { from: 2, to: 2 }.is_empty());
}

#[test]
fn states_laws() {
    each_input_has_one_first_fault();
    lines_spell_their_input();
    fields_spell_their_card();
}
