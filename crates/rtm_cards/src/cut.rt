//! Cutting an input into its cards.

ghost use Rattle.std.specs.Prelude.{◌≡◌, ◌+◌, ◌<◌, ◌≤◌, ◌^◌, ◌∷◌, [], ◌++◌, map, take, length, IsOk, OnOk, IfOk, MatchOption};
ghost use Rattle.std.specs.List.{AllByRecursion};
ghost use Rattle.rtm_cards.specs.Limits.{most_bytes};
ghost use Rattle.rtm_cards.specs.Span.{IsWithin, text_of};
ghost use Rattle.rtm_cards.specs.Lines.{lines_of, line_at, start_of, number_at};
ghost use Rattle.rtm_cards.specs.Rules.{fault_of};
ghost use Rattle.rtm_cards.specs.Cards.{card_of, cards_from, card_text, HasSpansIn, LiesOn, IsCardOf};
ghost use Rattle.rtm_cards.specs.Faults.{HasNoFault, IsFirstFault, lines_before};

use crate::card::Card;
use crate::fault::{CardFault, CutFault, CutWhy};
use crate::fields::fields_of;
use crate::limits::MOST_BYTES;
use crate::lines::cut_line;
use crate::operands::operands_of;
use crate::rules::{fault_of, is_ignored};
use crate::span::Span;
use std::alloc::Global;
use std::marker::Model;

/// The cards of an input up to its first fault.
#[derive(Debug, Drop)]
pub struct Cut {
    /// The cards before the fault, in order, without comments and blank cards.
    pub cards: Vec<Card>,
    /// How many cards stand before the fault, comments and blank cards counted; 0 where there are
    /// too many bytes.
    pub lines: u32,
    /// The first fault, if there is one.
    pub fault: Option<CutFault>,
}

impl Model for Cut {
    ghost use Rattle.rtm_cards.specs.View.{CutView};

    ghost Value = { CutView };

    ghost view = { λ a. record { cards = a.cards.items; lines = a.lines; fault = a.fault } };
}

// The card of that number, which lies on that line.
fn card_of(alloc: Global, bytes: &[u8], number: u32, line: Span) -> Result<Card, CardFault>
    requires { IsWithin bytes.now line }
    ensures text { IfOk result
        (λ card. card_text bytes.now card ≡ card_of number (text_of bytes.now line)) }
    ensures spans { IfOk result (HasSpansIn bytes.now) }
    ensures places { IfOk result (LiesOn line.from (text_of bytes.now line)) }
{
    let fields = fields_of(bytes, line);
    let operands = operands_of(alloc, bytes, fields.operands)?;
    Ok(Card {
        number,
        name: fields.name,
        op: fields.op,
        operands,
    })
}

// Puts a card behind the others, unless it is a comment or blank.
fn put_card(
    alloc: Global,
    bytes: &[u8],
    number: u32,
    line: Span,
    cards: &mut Vec<Card>,
) -> Result<(), CardFault>
    requires within { IsWithin bytes.now line }
    requires line { line_at (lines_of bytes.now) number ≡ text_of bytes.now line }
    requires start { start_of (lines_of bytes.now) number ≡ line.from }
    requires fine { fault_of number (text_of bytes.now line) ≡ None }
    ensures text { OnOk result (map (card_text bytes.now) cards.new.items
        ≡ map (card_text bytes.now) cards.old.items
        ++ cards_from number (text_of bytes.now line ∷ [])) }
    ensures each { OnOk result (AllByRecursion (IsCardOf bytes.now) cards.old.items
        → AllByRecursion (IsCardOf bytes.now) cards.new.items) }
{
    if is_ignored(line.text(bytes)) {
        return Ok(());
    }
    let card = card_of(alloc, bytes, number, line)?;
    cards.push(card)?;
    Ok(())
}

// Cuts an input that isn't too long.
fn cut_lines(alloc: Global, bytes: &[u8]) -> Result<Cut, CardFault>
    requires { length bytes.now ≤ most_bytes }
    ensures fault { IfOk result
        (λ cut. MatchOption cut.fault (HasNoFault bytes.now) (IsFirstFault bytes.now)) }
    ensures lines { IfOk result (λ cut. cut.lines ≡ lines_before bytes.now cut.fault) }
    ensures cards { IfOk result (λ cut. map (card_text bytes.now) cut.cards
        ≡ cards_from 1 (take cut.lines (lines_of bytes.now))) }
    ensures each { IfOk result (λ cut. AllByRecursion (IsCardOf bytes.now) cut.cards) }
{
    let mut cards = Vec::new(alloc);
    let mut lines = 0;
    let mut rest = Span::whole_span(bytes);
    'cards: while !rest.is_empty() {
        let (line, behind) = cut_line(bytes, rest);
        let number = lines + 1;
        if let Some(why) = fault_of(number, line.text(bytes)) {
            let fault = Some(CutFault { card: number, why });
            return Ok(Cut {
                cards,
                lines,
                fault,
            });
        }
        put_card(alloc, bytes, number, line, &mut cards)?;
        lines = number;
        rest = behind;
    }
    Ok(Cut {
        cards,
        lines,
        fault: None,
    })
}

// The number of the card that holds the byte of that index.
#[tactic(auto, unfolding(crate::specs::Lines::number_at))]
fn number_at(bytes: &[u8], i: usize) -> u32
    requires there { i < length bytes.now }
    requires fits { i < 2 ^ 31 }
    ensures { result ≡ number_at bytes.now i }
{
    let (front, _) = bytes.split_at(i);
    front.iter().filter(|byte| **byte == b'\n').count() as u32 + 1
}

/// Cuts a deck into its cards, up to its first fault.
///
/// Each line of the deck is a card, and a line feed ends it; the last card may have none. Comments
/// and blank cards are counted, tested and left out. The fault is `TooLong` where there are more
/// than 16,777,216 bytes, at the card that holds the first byte too many. Else it is that of the
/// first card that breaks a rule, and there the first of `OverLimit`, `BadByte` and `BadCard` (this
/// profile). The only error is want of memory, which each card that is kept may meet.
pub fn cut_cards(alloc: Global, bytes: &[u8]) -> Result<Cut, CardFault>
    ensures fault { IfOk result
        (λ cut. MatchOption cut.fault (HasNoFault bytes.now) (IsFirstFault bytes.now)) }
    ensures lines { IfOk result (λ cut. cut.lines ≡ lines_before bytes.now cut.fault) }
    ensures cards { IfOk result (λ cut. map (card_text bytes.now) cut.cards
        ≡ cards_from 1 (take cut.lines (lines_of bytes.now))) }
    ensures each { IfOk result (λ cut. AllByRecursion (IsCardOf bytes.now) cut.cards) }

    // Too many bytes are refused without memory.
    ensures size { most_bytes < length bytes.now → IsOk result }
{
    if bytes.len() <= MOST_BYTES {
        return cut_lines(alloc, bytes);
    }
    let fault = CutFault {
        card: number_at(bytes, MOST_BYTES),
        why: CutWhy::TooLong,
    };
    Ok(Cut {
        cards: Vec::new(alloc),
        lines: 0,
        fault: Some(fault),
    })
}
