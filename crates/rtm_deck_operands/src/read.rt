//! Reading operands by a table of slots.

ghost use Rattle.std.specs.Prelude.{◌≡◌, ◌≤◌, ◌<◌, ◌^◌, List, [], Option, Some, None, IfSome, IfNone, length, map, option_map};
ghost use Rattle.std.specs.List.{AllByRecursion, position_from};
ghost use Rattle.rtm_cards.specs.Span.{IsWithin, text_of};
ghost use Rattle.rtm_deck_operands.specs.declared.value.Value.{Value};
ghost use Rattle.rtm_deck_operands.specs.inner.Part.{AreWithin, part_texts};
ghost use Rattle.rtm_deck_operands.specs.Slot.{SpellsSlots, FitsSlots, IsWellMade};
ghost use Rattle.rtm_deck_operands.specs.inner.Reading.{has_key, place_of, meaning_of, operand_in, take_operand, read_slots, Taken, taken_value, written_in};

use crate::name::trimmed_text;
use crate::part::{Part, parts_of};
use crate::read_value::read_value;
use crate::slot::{LeftOut, MOST_SLOTS, Slot};
use crate::value::Value;
use arrayvec::ArrayVec;
use rtm_cards::Span;

/// A value for each slot of a table, in its order; `None` where the operand is left out and that means nothing.
pub type Values = ArrayVec<Option<Value>, MOST_SLOTS>;

// The text of the value, if the operand has that key; that of a positional operand is the whole operand.
fn written_in<'a>(operand: &'a [u8], key: &[u8]) -> Option<&'a [u8]>
    ensures { option_map (λ text. text.now) result ≡ written_in key.now operand.now }
{
    if key.is_empty() {
        return Some(operand);
    }
    let behind = operand.strip_prefix(key)?;
    match behind {
        [b'=', text @ ..] => Some(text),
        _ => None,
    }
}

// Whether the operand has that key.
fn has_key(operand: &[u8], key: &[u8]) -> bool
    requires { 0 < length key.now }
    ensures { result ≡ has_key key.now operand.now }
{
    written_in(operand, key).is_some()
}

// Where the first operand stands that has that key.
fn find_key(bytes: &[u8], operands: &[Part], key: &[u8]) -> Option<usize>
    requires within { AreWithin bytes.now operands.now }
    requires keyword { 0 < length key.now }
    ensures place { result ≡ position_from (has_key key.now) 0 (part_texts bytes.now operands.now) }
    ensures there { IfSome result (λ i. i < length operands.now) }
{
    for (i, operand) in operands.iter().enumerate() {
        if has_key(operand.text(bytes), key) {
            return Some(i);
        }
    }
    None
}

// Which of the operands is the slot's.
fn place_of(bytes: &[u8], operands: &[Part], key: &[u8]) -> Option<usize>
    requires { AreWithin bytes.now operands.now }
    ensures place { result ≡ place_of key.now (part_texts bytes.now operands.now) }
    ensures there { IfSome result (λ i. i < length operands.now) }
{
    if !key.is_empty() {
        return find_key(bytes, operands, key);
    }
    if operands.is_empty() { None } else { Some(0) }
}

// The value of a slot that an operand spells.
fn operand_value(operand: &[u8], slot: &Slot) -> Option<Value>
    ensures { result ≡ operand_in slot.now operand.now }
{
    read_value(slot.kind, written_in(operand, trimmed_text(&slot.key))?)
}

// What leaving the operand out means, or `None` where it is needed.
fn meaning_of(left_out: LeftOut) -> Option<Option<Value>>
    ensures { result ≡ meaning_of left_out }
{
    match left_out {
        LeftOut::Needed => None,
        LeftOut::Nothing => Some(None),
        LeftOut::Flag(flag) => Some(Some(Value::Flag(flag))),
        LeftOut::Number(number) => Some(Some(Value::Number(number))),
    }
}

// Takes the slot's operand out of those that are left, and gives its value.
fn take_operand(
    bytes: &[u8],
    left: &mut ArrayVec<Part, MOST_SLOTS>,
    slot: &Slot,
) -> Option<Option<Value>>
    requires { AreWithin bytes.now left.old.items }
    ensures value { option_map (taken_value (part_texts bytes.now left.new.items)) result
        ≡ take_operand slot.now (part_texts bytes.now left.old.items) }
    ensures within { AreWithin bytes.now left.new.items }
{
    match place_of(bytes, left.as_slice(), trimmed_text(&slot.key)) {
        None => meaning_of(slot.left_out),
        Some(i) => {
            let operand = left.remove(i);
            given_value(operand_value(operand.text(bytes), slot))
        }
    }
}

// The value of an operand that is given.
fn given_value(value: Option<Value>) -> Option<Option<Value>>
    ensures { result ≡ option_map Some value }
{
    value.map(Some)
}

// The values of the slots that those operands spell.
fn read_slots(bytes: &[u8], mut left: ArrayVec<Part, MOST_SLOTS>, slots: &[Slot]) -> Option<Values>
    requires within { AreWithin bytes.now left.items }
    requires few { length slots.now ≤ 8 }
    ensures { option_map (λ values. values.items) result
        ≡ read_slots slots.now (part_texts bytes.now left.items) }
{
    let mut values = ArrayVec::new();
    'slots: for slot in slots {
        match take_operand(bytes, &mut left, slot) {
            None => return None,
            Some(value) => values.push(value),
        }
    }
    if left.is_empty() { Some(values) } else { None }
}

/// Reads the operands of a card by a table of slots (this profile).
///
/// Positional operands stand first, in the order of the table; keyword operands stand behind them in any order, each
/// at most once. The values are those of the slots, in the order of the table, with what it means that an operand is
/// left out. `None` where an operand is missing, unknown, doubled, misspelled or out of range.
pub fn read_operands(bytes: &[u8], operands: &[Span], slots: &[Slot]) -> Option<Values>
    requires within { AllByRecursion (IsWithin bytes.now) operands.now }
    requires table { IsWellMade slots.now }

    // What is read is spelled so, and fits its slots.
    ensures found { IfSome result
        (λ values. SpellsSlots slots.now (map (text_of bytes.now) operands.now) values.items) }
    ensures fit { IfSome result (λ values. FitsSlots slots.now values.items) }

    // Where nothing is read, nothing is spelled.
    ensures only { IfNone result ((values : List (Option Value))
        → SpellsSlots slots.now (map (text_of bytes.now) operands.now) values → ⊥) }

    // The same, computed.
    ensures value { option_map (λ values. values.items) result
        ≡ read_slots slots.now (map (text_of bytes.now) operands.now) }
{
    read_slots(bytes, parts_of(operands)?, slots)
}
