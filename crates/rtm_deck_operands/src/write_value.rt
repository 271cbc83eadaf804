//! Writing the text of a value.

ghost use Rattle.std.specs.Prelude.{◌≡◌, ◌++◌, IsTrue, OnOk};
ghost use Rattle.rtm_deck_operands.specs.Name.{trimmed_text};
ghost use Rattle.rtm_deck_operands.specs.Value.{answer_text, class_text, class_value_text, code_text, fits, flag_text, name_text, number_text, reason_text, scope_text, three_text, value_text, yes_or_no};

use crate::name::Name;
use crate::slot::Kind;
use crate::value::{Res, Three, Value};
use rtm_codes::{NoMemory, code_short};
use rtm_text::{push_bytes, push_decimal, push_hexadecimal};

/// Appends the text of a value of that kind.
pub(crate) fn push_value(out: &mut Vec<u8>, kind: Kind, value: Value) -> Result<(), NoMemory>
    requires { IsTrue (fits kind value) }
    ensures { OnOk result (out.new.items ≡ out.old.items ++ value_text kind value) }
{
    match kind {
        Kind::Word(word) => push_before_blank(out, &word),
        Kind::Number { .. } | Kind::ReturnCode => push_number(out, value),
        Kind::Name(_) => push_name_value(out, value),
        Kind::Code | Kind::AbendCode => push_code(out, value),
        Kind::Reason => push_reason(out, value),
        Kind::YesNo => push_yes_or_no(out, value),
        Kind::YesNoIgnore => push_three(out, value),
        Kind::Class => push_class(out, value),
        Kind::Scope => push_scope(out, value),
    }
}

fn push_number(out: &mut Vec<u8>, value: Value) -> Result<(), NoMemory>
    ensures { OnOk result (out.new.items ≡ out.old.items ++ number_text value) }
{
    match value {
        Value::Number(number) => push_decimal(out, u64::from(number)),
        _ => Ok(()),
    }
}

fn push_name_value(out: &mut Vec<u8>, value: Value) -> Result<(), NoMemory>
    ensures { OnOk result (out.new.items ≡ out.old.items ++ name_text value) }
{
    match value {
        Value::Name(name) => push_name(out, &name),
        _ => Ok(()),
    }
}

fn push_code(out: &mut Vec<u8>, value: Value) -> Result<(), NoMemory>
    requires { IsTrue (fits Kind.Code value) }
    ensures { OnOk result (out.new.items ≡ out.old.items ++ code_text value) }
{
    match value {
        Value::Code(code) => push_bytes(out, code_short(code).as_slice()),
        _ => Ok(()),
    }
}

fn push_reason(out: &mut Vec<u8>, value: Value) -> Result<(), NoMemory>
    ensures { OnOk result (out.new.items ≡ out.old.items ++ reason_text value) }
{
    match value {
        Value::Reason(reason) => push_hexadecimal(out, reason),
        _ => Ok(()),
    }
}

fn push_yes_or_no(out: &mut Vec<u8>, value: Value) -> Result<(), NoMemory>
    ensures { OnOk result (out.new.items ≡ out.old.items ++ flag_text yes_or_no value) }
{
    match value {
        Value::Flag(true) => push_bytes(out, b"YES"),
        Value::Flag(false) => push_bytes(out, b"NO"),
        _ => Ok(()),
    }
}

fn push_scope(out: &mut Vec<u8>, value: Value) -> Result<(), NoMemory>
    ensures { OnOk result (out.new.items ≡ out.old.items ++ flag_text scope_text value) }
{
    match value {
        Value::Flag(true) => push_bytes(out, b"SPACE"),
        Value::Flag(false) => push_bytes(out, b"TASK"),
        _ => Ok(()),
    }
}

fn push_three(out: &mut Vec<u8>, value: Value) -> Result<(), NoMemory>
    ensures { OnOk result (out.new.items ≡ out.old.items ++ answer_text value) }
{
    match value {
        Value::Three(Three::Yes) => push_bytes(out, b"YES"),
        Value::Three(Three::No) => push_bytes(out, b"NO"),
        Value::Three(Three::Ignore) => push_bytes(out, b"IGNORE"),
        _ => Ok(()),
    }
}

fn push_class(out: &mut Vec<u8>, value: Value) -> Result<(), NoMemory>
    ensures { OnOk result (out.new.items ≡ out.old.items ++ class_value_text value) }
{
    match value {
        Value::Class(Res::Enq) => push_bytes(out, b"ENQ"),
        Value::Class(Res::Stor) => push_bytes(out, b"STOR"),
        Value::Class(Res::Dsn) => push_bytes(out, b"DSN"),
        Value::Class(Res::Timr) => push_bytes(out, b"TIMR"),
        _ => Ok(()),
    }
}

/// Appends a name without its padding, 1 to 8 characters. The only error is want of memory.
pub fn push_name(out: &mut Vec<u8>, name: &Name) -> Result<(), NoMemory>
    ensures { OnOk result (out.new.items ≡ out.old.items ++ trimmed_text name.now) }
{
    push_before_blank(out, &name.0)
}

// Appends what stands before the first blank.
fn push_before_blank(out: &mut Vec<u8>, bytes: &[u8]) -> Result<(), NoMemory>
    ensures { OnOk result (out.new.items ≡ out.old.items ++ trimmed_text bytes.now) }
{
    for byte in bytes {
        if *byte == b' ' {
            break;
        }
        out.push(*byte)?;
    }
    Ok(())
}
