//! Writing operands by a table of slots.

ghost use Rattle.std.specs.Prelude.{◌≡◌, ◌++◌, IfOk, IsTrue, OnOk, Some, []};
ghost use Rattle.rtm_deck_operands.specs.Value.{fits};
ghost use Rattle.rtm_deck_operands.specs.Slot.{FitsSlots, canon_operand, canon_operands, field_of, is_default, is_flag, is_number, operand_text, separated_operands, separator_after, slot_fits, slots_fit};

use crate::name::trimmed_text;
use crate::slot::{LeftOut, Slot};
use crate::value::Value;
use crate::write_value::push_value;
use rtm_codes::NoMemory;
use rtm_text::push_bytes;

/// Appends the canonical operands of a card (this profile): a blank and the operands with commas between them, or
/// nothing where all are left out.
///
/// They stand in the order of the table. An operand whose value is what leaving it out means is left out. Numbers and
/// reasons have no leading zeros, codes their short text. `values` has one value for each slot, and each fits. The only
/// error is want of memory.
pub fn push_operands(
    out: &mut Vec<u8>,
    slots: &[Slot],
    values: &[Option<Value>],
) -> Result<(), NoMemory>
    requires { FitsSlots slots.now values.now }
    ensures { OnOk result
        (out.new.items ≡ out.old.items ++ field_of (canon_operands slots.now values.now)) }
{
    push_separated(out, b' ', slots, values)
}

// Appends the operands, the first behind that separator and the others behind a comma.
fn push_separated(
    out: &mut Vec<u8>,
    separator: u8,
    slots: &[Slot],
    values: &[Option<Value>],
) -> Result<(), NoMemory>
    requires { IsTrue (slots_fit slots.now values.now) }
    ensures { OnOk result
        (out.new.items ≡ out.old.items
        ++ separated_operands separator (canon_operands slots.now values.now)) }
{
    let Some((slot, slots)) = slots.split_first() else {
        return Ok(());
    };
    let Some((value, values)) = values.split_first() else {
        return Ok(());
    };
    let next = push_operand(out, separator, slot, *value)?;
    push_separated(out, next, slots, values)
}

// Appends an operand behind the separator, unless it is left out, and answers the separator of the next one.
fn push_operand(
    out: &mut Vec<u8>,
    separator: u8,
    slot: &Slot,
    value: Option<Value>,
) -> Result<u8, NoMemory>
    requires { IsTrue (slot_fits slot.now value) }
    ensures pushed { OnOk result
        (out.new.items ≡ out.old.items
        ++ separated_operands separator (canon_operand slot.now value)) }
    ensures next { IfOk result
        (λ next. next ≡ separator_after separator (canon_operand slot.now value)) }
{
    match value {
        None => Ok(separator),
        Some(value) => push_given(out, separator, slot, value),
    }
}

fn push_given(out: &mut Vec<u8>, separator: u8, slot: &Slot, value: Value) -> Result<u8, NoMemory>
    requires { IsTrue (fits slot.now.kind value) }
    ensures pushed { OnOk result
        (out.new.items ≡ out.old.items
        ++ separated_operands separator (canon_operand slot.now (Some value))) }
    ensures next { IfOk result
        (λ next. next ≡ separator_after separator (canon_operand slot.now (Some value))) }
{
    if is_default(slot.left_out, &value) {
        return Ok(separator);
    }
    out.push(separator)?;
    push_key(out, trimmed_text(&slot.key))?;
    push_value(out, slot.kind, value)?;
    Ok(b',')
}

// Appends the key and `=`, and nothing for a positional operand.
fn push_key(out: &mut Vec<u8>, key: &[u8]) -> Result<(), NoMemory>
    ensures { OnOk result (out.new.items ≡ out.old.items ++ operand_text key.now []) }
{
    if key.is_empty() {
        return Ok(());
    }
    push_bytes(out, key)?;
    out.push(b'=')?;
    Ok(())
}

// Whether the value is what leaving the operand out means.
fn is_default(left_out: LeftOut, value: &Value) -> bool
    ensures { result ≡ is_default left_out value.now }
{
    match left_out {
        LeftOut::Needed | LeftOut::Nothing => false,
        LeftOut::Flag(flag) => is_flag(flag, value),
        LeftOut::Number(number) => is_number(number, value),
    }
}

fn is_flag(flag: bool, value: &Value) -> bool
    ensures { result ≡ is_flag flag value.now }
{
    match *value {
        Value::Flag(own) => { if flag { own } else { !own } }
        _ => false,
    }
}

fn is_number(number: u32, value: &Value) -> bool
    ensures { result ≡ is_number number value.now }
{
    match *value {
        Value::Number(own) => own == number,
        _ => false,
    }
}
