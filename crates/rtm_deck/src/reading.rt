//! Reading a deck.

ghost use Rattle.std.specs.Prelude.{◌≡◌, ◌<◌, ◌^◌, [], ℕ, Option, Some, None, Result, Ok, Err, map, length, IfOk, IfErr};
ghost use Rattle.std.specs.List.{AllByRecursion};
ghost use Rattle.rtm_cards.specs.Cards.{card_text, HasSpansIn, IsCardOf};
ghost use Rattle.rtm_deck_items.specs.Spelling.{DeckText};
ghost use Rattle.rtm_deck_items.specs.declared.why.Why.{Why};
ghost use Rattle.rtm_deck_items.specs.Faults.{IsFirstFault, why_of_cut};
ghost use Rattle.rtm_deck_items.specs.View.{DeckView};
ghost use Rattle.rtm_deck.specs.Refusal.{IsRefusalOf, IsThatDeck, IsThatRefusal};
ghost use Rattle.rtm_deck.specs.inner.Seen.{nothing_seen};
ghost use Rattle.rtm_deck.specs.inner.References.{first_nameless};
ghost use Rattle.rtm_deck.specs.inner.Building.{deck_of};
ghost use Rattle.rtm_deck.specs.inner.Reader.{Gives, scan_of, scan_next, scan, why_unended, deck_if_named, deck_if_ended, deck_or_fault, read_cards};

use crate::build::{Parts, build};
use crate::card::{Read, read_card};
use crate::fault::DeckFault;
use crate::find::find_names;
use crate::role::role_of;
use crate::seen::Seen;
use arrayvec::ArrayVec;
use rtm_cards::{Card, Cut, CutFault, CutWhy, cut_cards};
use rtm_deck_items::{Deck, Why};
use std::alloc::Global;
use std::marker::Model;

// The cards that were read, and what was seen on them.
#[derive(Drop)]
struct Scan {
    reads: Vec<Read>,
    seen: Seen,
}

impl Model for Scan {
    ghost use Rattle.rtm_deck.specs.inner.View.{ScanView};

    ghost Value = { ScanView };

    ghost view = { λ a. record { reads = a.reads.items; seen = a.seen } };
}

// Reads one card more behind those that were read, unless it breaks a rule of form.
fn read_next(
    reads: &mut Vec<Read>,
    seen: &mut Seen,
    bytes: &[u8],
    card: &Card,
) -> Result<(), DeckFault>
    requires spans { HasSpansIn bytes.now card.now }
    requires few { seen.old.commands < 2 ^ 31 }
    ensures { Gives (λ _ t. scan_of reads.new.items seen.new ≡ t) result
        (scan_next (scan_of reads.old.items seen.old) (card_text bytes.now card.now)) }
{
    let number = card.number;
    let mut values = ArrayVec::new();
    match read_card(seen, bytes, card, &mut values) {
        Err(why) => Err(DeckFault::Refused { card: number, why }),
        Ok((name, form)) => {
            seen.add(role_of(form), &name)?;
            reads.push(Read {
                number,
                name,
                form,
                values,
            })?;
            Ok(())
        }
    }
}

// Reads the cards one after the other, up to the first that breaks a rule of form.
fn scan_cards(alloc: Global, bytes: &[u8], cards: &[Card]) -> Result<Scan, DeckFault>
    requires spans { AllByRecursion (HasSpansIn bytes.now) cards.now }
    requires few { length cards.now < 2 ^ 30 }
    ensures { Gives (λ a b. a ≡ b) result
        (scan [] nothing_seen (map (card_text bytes.now) cards.now)) }
{
    let mut reads = Vec::with_capacity(alloc, cards.len())?;
    let mut seen = Seen::new(alloc);
    'cards: for card in cards {
        match read_next(&mut reads, &mut seen, bytes, card) {
            Err(fault) => return Err(fault),
            Ok(()) => {}
        }
    }
    Ok(Scan { reads, seen })
}

// The fault where no END stands.
fn why_unended(seen: &Seen) -> Why
    ensures { result ≡ why_unended seen.now }
{
    if seen.tasks.is_empty() {
        Why::NoJobStep
    } else {
        Why::NoEnd
    }
}

// The deck of cards whose names are all there, but for want of memory.
fn deck_parts(alloc: Global, scan: &Scan) -> Result<Parts, DeckFault>
    ensures { Gives (λ a b. a ≡ b) result (Ok (deck_of scan.now)) }
{
    match build(alloc, &scan.seen, &scan.reads) {
        Err(_) => Err(DeckFault::Memory),
        Ok(parts) => Ok(parts),
    }
}

// The deck, where each name is there.
fn deck_if_named(alloc: Global, scan: &Scan) -> Result<Parts, DeckFault>
    ensures { Gives (λ a b. a ≡ b) result
        (deck_if_named scan.now (first_nameless scan.now.seen [] scan.now.reads)) }
{
    match find_names(alloc, &scan.seen, &scan.reads) {
        Err(fault) => Err(fault),
        Ok(()) => deck_parts(alloc, scan),
    }
}

// The deck of cards that break no rule of form, where that many lines are there.
fn deck_if_ended(alloc: Global, lines: u32, scan: &Scan) -> Result<Parts, DeckFault>
    requires { lines < 2 ^ 31 }
    ensures { Gives (λ a b. a ≡ b) result (deck_if_ended lines scan.now) }
{
    if scan.seen.ended {
        deck_if_named(alloc, scan)
    } else {
        Err(DeckFault::Refused {
            card: lines + 1,
            why: why_unended(&scan.seen),
        })
    }
}

// The fault of a rule of cutting.
fn why_of_cut(why: CutWhy) -> Why
    ensures { result ≡ why_of_cut why }
{
    match why {
        CutWhy::TooLong => Why::TooLong,
        CutWhy::OverLimit => Why::OverLimit,
        CutWhy::BadByte => Why::BadByte,
        CutWhy::BadCard => Why::BadCard,
    }
}

// The deck of cards that break no rule of form, or the fault of cutting behind them.
fn deck_or_fault(
    alloc: Global,
    lines: u32,
    fault: Option<CutFault>,
    scan: &Scan,
) -> Result<Parts, DeckFault>
    requires { lines < 2 ^ 31 }
    ensures { Gives (λ a b. a ≡ b) result (deck_or_fault lines fault (Ok scan.now)) }
{
    match fault {
        None => deck_if_ended(alloc, lines, scan),
        Some(fault) => Err(DeckFault::Refused {
            card: fault.card,
            why: why_of_cut(fault.why),
        }),
    }
}

// The deck that the cards before the fault of cutting spell, or the first fault.
fn read_cards(
    alloc: Global,
    bytes: &[u8],
    cards: &[Card],
    lines: u32,
    fault: Option<CutFault>,
) -> Result<Parts, DeckFault>
    requires spans { AllByRecursion (HasSpansIn bytes.now) cards.now }
    requires few { length cards.now < 2 ^ 30 }
    requires counted { lines < 2 ^ 31 }
    ensures { Gives (λ a b. a ≡ b) result
        (read_cards (map (card_text bytes.now) cards.now) lines fault) }
{
    match scan_cards(alloc, bytes, cards) {
        Err(fault) => Err(fault),
        Ok(scan) => deck_or_fault(alloc, lines, fault, &scan),
    }
}

// The deck that the bytes spell, or their first fault.
fn read_bytes(alloc: Global, bytes: &[u8]) -> Result<Deck, DeckFault>
    ensures found { IfOk result (λ deck. DeckText bytes.now deck) }
    ensures refused { IfErr result (IsRefusalOf bytes.now) }
{
    let cut = match cut_cards(alloc, bytes) {
        Err(_) => return Err(DeckFault::Memory),
        Ok(cut) => cut,
    };
    match read_cards(alloc, bytes, &cut.cards, cut.lines, cut.fault) {
        Err(fault) => Err(fault),
        Ok(parts) => Ok(Deck {
            limit: parts.limit,
            sdwa: parts.sdwa,
            programs: parts.programs,
            units: parts.units,
            commands: parts.commands,
        }),
    }
}

/// Reads a deck, or names its first fault (this profile).
///
/// A card with a fault of form comes before a missing END, and that before a name or label that isn't there; in one
/// card the faults are looked for in the order that docs/CARDS.md gives. The other error is want of memory.
pub fn read_deck(alloc: Global, bytes: &[u8]) -> Result<Deck, DeckFault>
    ensures found { IfOk result (λ deck. DeckText bytes.now deck) }
    ensures refused { IfErr result (IsRefusalOf bytes.now) }

    // What is spelled is read, and a fault is named, but for want of memory.
    ensures spelled { (d : DeckView) → DeckText bytes.now d → IsThatDeck d result }
    ensures fault { (card : ℕ) (why : Why) → IsFirstFault bytes.now card why
        → IsThatRefusal card why result }
{
    read_bytes(alloc, bytes)
}
