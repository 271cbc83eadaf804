//! Reading the text of a value.

ghost use Rattle.std.specs.Prelude.{◌≡◌, ◌≤◌};
ghost use Rattle.rtm_codes.specs.declared.code.Code.{Code};
ghost use Rattle.rtm_codes.specs.Code.{same_code};
ghost use Rattle.rtm_deck_operands.specs.Value.{yes_or_no, scope_text, is_return_code, is_abend_code};
ghost use Rattle.rtm_deck_operands.specs.inner.Reading.{number_in, flag_in, three_in, class_in, value_in};

use crate::name::{name_of, trimmed_text};
use crate::slot::Kind;
use crate::value::{Res, Three, Value};
use rtm_codes::{Code, is_in_range, read_code};
use rtm_text::number_in;

// How many digits a number has at most.
const MOST_DIGITS: usize = 10;

// How many digits a reason has at most.
const MOST_REASON_DIGITS: usize = 8;

/// The value of that kind that a text spells.
pub(crate) fn read_value(kind: Kind, text: &[u8]) -> Option<Value>
    ensures { result ≡ value_in kind text.now }
{
    match kind {
        Kind::Word(word) => {
            if text == trimmed_text(&word) {
                Some(Value::Word)
            } else {
                None
            }
        }
        Kind::Number { least, most } => decimal_number(text, least, most).map(Value::Number),
        Kind::ReturnCode => decimal_number(text, 0, u32::MAX)
            .filter(|code| is_return_code(*code))
            .map(Value::Number),
        Kind::Name(_) => name_of(text).map(Value::Name),
        Kind::Code => read_code(text).map(Value::Code),
        Kind::AbendCode => read_code(text)
            .filter(|code| is_abend_code(*code))
            .map(Value::Code),
        Kind::Reason => number(text, 16, MOST_REASON_DIGITS, 0, u32::MAX).map(Value::Reason),
        Kind::YesNo => yes_or_no(text).map(Value::Flag),
        Kind::YesNoIgnore => three(text).map(Value::Three),
        Kind::Class => class(text).map(Value::Class),
        Kind::Scope => is_space(text).map(Value::Flag),
    }
}

fn decimal_number(text: &[u8], least: u32, most: u32) -> Option<u32>
    ensures { result ≡ number_in 10 10 least most text.now }
{
    number(text, 10, MOST_DIGITS, least, most)
}

// The number of one to `width` digits in the base, where it lies between the two.
fn number(text: &[u8], base: u64, width: usize, least: u32, most: u32) -> Option<u32>
    requires small_base { base ≤ 16 }
    requires few_digits { width ≤ 10 }
    ensures { result ≡ number_in base width least most text.now }
{
    if text.is_empty() || text.len() > width {
        return None;
    }
    let number = number_in(text, base)?;
    if u64::from(least) <= number && number <= u64::from(most) {
        Some(number as u32)
    } else {
        None
    }
}

fn is_return_code(code: u32) -> bool
    ensures { result ≡ is_return_code code }
{
    code == 0 || code == 4 || code == 16
}

fn is_abend_code(code: Code) -> bool
    ensures { result ≡ is_abend_code code }
{
    is_in_range(code) && !is_normal_end(code)
}

fn is_normal_end(code: Code) -> bool
    ensures { result ≡ same_code code (Code.Sys 0) }
{
    match code {
        Code::Sys(number) => number == 0,
        Code::User(_) => false,
    }
}

fn yes_or_no(text: &[u8]) -> Option<bool>
    ensures { result ≡ flag_in yes_or_no text.now }
{
    match text {
        b"YES" => Some(true),
        b"NO" => Some(false),
        _ => None,
    }
}

fn is_space(text: &[u8]) -> Option<bool>
    ensures { result ≡ flag_in scope_text text.now }
{
    match text {
        b"SPACE" => Some(true),
        b"TASK" => Some(false),
        _ => None,
    }
}

// (A match on byte strings as long as IGNORE is more than the prover's own search follows.)
fn three(text: &[u8]) -> Option<Three>
    ensures { result ≡ three_in text.now }
{
    if text == b"YES".as_slice() {
        Some(Three::Yes)
    } else if text == b"NO".as_slice() {
        Some(Three::No)
    } else if text == b"IGNORE".as_slice() {
        Some(Three::Ignore)
    } else {
        None
    }
}

fn class(text: &[u8]) -> Option<Res>
    ensures { result ≡ class_in text.now }
{
    match text {
        b"ENQ" => Some(Res::Enq),
        b"STOR" => Some(Res::Stor),
        b"DSN" => Some(Res::Dsn),
        b"TIMR" => Some(Res::Timr),
        _ => None,
    }
}
