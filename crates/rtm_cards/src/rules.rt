//! The rules that a card may break.

ghost use Rattle.std.specs.Prelude.{◌≡◌, ◌<◌, ◌^◌, length};
ghost use Rattle.std.specs.List.{list_all};
ghost use Rattle.rtm_cards.specs.Rules.{is_comment, is_blank_card, is_ignored, is_printable, has_good_fields, is_bad_card, fault_of};

use crate::fault::CutWhy;
use crate::fields::fields_of;
use crate::limits::{MOST_CARD_BYTES, MOST_CARDS};
use crate::name::is_name;
use crate::span::Span;

fn is_comment(card: &[u8]) -> bool
    ensures { result ≡ is_comment card.now }
{
    matches!(card, [b'*', ..])
}

fn is_blank_card(card: &[u8]) -> bool
    ensures { result ≡ is_blank_card card.now }
{
    card.iter().all(|byte| *byte == b' ')
}

/// Whether the card is a comment or blank.
pub fn is_ignored(card: &[u8]) -> bool
    ensures { result ≡ is_ignored card.now }
{
    is_comment(card) || is_blank_card(card)
}

// (A test of all bytes without a way out of the loop takes less than one that ends at the first bad byte.)
fn is_printable(card: &[u8]) -> bool
    ensures { result ≡ list_all is_printable card.now }
{
    let mut good = true;
    for byte in card {
        good &= matches!(*byte, 32..=126);
    }
    good
}

fn has_good_fields(card: &[u8]) -> bool
    requires { length card.now < 2 ^ 32 }
    ensures { result ≡ has_good_fields card.now }
{
    let fields = fields_of(card, Span::whole_span(card));
    let name = fields.name.text(card);
    (name.is_empty() || is_name(name)) && !fields.op.is_empty()
}

fn is_bad_card(card: &[u8]) -> bool
    ensures { result ≡ is_bad_card card.now }
{
    card.len() > MOST_CARD_BYTES || !(is_ignored(card) || has_good_fields(card))
}

/// The first rule that the card of that number breaks.
#[tactic(auto, unfolding(crate::specs::Rules::fault_of))]
pub fn fault_of(number: u32, card: &[u8]) -> Option<CutWhy>
    ensures { result ≡ fault_of number card.now }
{
    if number > MOST_CARDS {
        Some(CutWhy::OverLimit)
    } else if !is_printable(card) {
        Some(CutWhy::BadByte)
    } else if is_bad_card(card) {
        Some(CutWhy::BadCard)
    } else {
        None
    }
}
