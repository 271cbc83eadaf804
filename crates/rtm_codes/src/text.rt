//! The text of a completion code, read and written.

ghost use Rattle.std.specs.Prelude.{◌≡◌, ◌<◌, ◌^◌, Some, IfSome, IfNone};
ghost use Rattle.rtm_codes.specs.declared.code.Code.{Code};
ghost use Rattle.rtm_codes.specs.Code.{IsInRange, Spells, short_of, text_of};
ghost use Rattle.rtm_codes.specs.Reading.{code_in, system_number_in, user_number_in};

use crate::code::{Code, GREATEST_NUMBER};
use arrayvec::ArrayVec;
use rtm_text::{character, number_in};

/// The code that a text spells (this profile): `S` and three hexadecimal digits, in capitals from A
/// on, or `U` and one to four decimal digits of at most 4095, where leading zeros are allowed.
/// `None` for every other text.
pub fn read_code(text: &[u8]) -> Option<Code>
    // What is read is spelled so.
    ensures found { IfSome result (λ code. Spells text.now code) }
    ensures in_range { IfSome result IsInRange }

    // What is spelled so is read.
    ensures only { (code : Code) → Spells text.now code → result ≡ Some code }
    ensures none { IfNone result ((code : Code) → Spells text.now code → ⊥) }

    // The same, computed.
    ensures value { result ≡ code_in text.now }
{
    spelled_code(text)
}

/// The text of a code in traces (this profile), of four or five characters: `S0C4`, or `U0007`.
pub fn code_text(code: Code) -> ArrayVec<u8, 5>
    requires { IsInRange code }
    ensures { result.items ≡ text_of code }
{
    let mut text = ArrayVec::new();
    match code {
        Code::Sys(number) => {
            text.push(b'S');
            text.push(character(u32::from(number / 256)));
            text.push(character(u32::from(number / 16 % 16)));
            text.push(character(u32::from(number % 16)));
        }
        Code::User(number) => {
            text.push(b'U');
            text.push(character(u32::from(number / 1000)));
            text.push(character(u32::from(number / 100 % 10)));
            text.push(character(u32::from(number / 10 % 10)));
            text.push(character(u32::from(number % 10)));
        }
    }
    text
}

/// The shortest text of a code, for cards (this profile), of two to five characters: `S0C4`, or
/// `U7`.
pub fn code_short(code: Code) -> ArrayVec<u8, 5>
    requires { IsInRange code }
    ensures { result.items ≡ short_of code }
{
    match code {
        Code::User(number) if number < 1000 => short_user_text(number),
        _ => code_text(code),
    }
}

fn short_user_text(number: u16) -> ArrayVec<u8, 5>
    requires { number < 1000 }
    ensures { result.items ≡ short_of (Code.User number) }
{
    let mut text = ArrayVec::new();
    text.push(b'U');
    if number >= 100 {
        text.push(character(u32::from(number / 100)));
    }
    if number >= 10 {
        text.push(character(u32::from(number / 10 % 10)));
    }
    text.push(character(u32::from(number % 10)));
    text
}

fn spelled_code(text: &[u8]) -> Option<Code>
    ensures { result ≡ code_in text.now }
{
    let (letter, digits) = text.split_first()?;
    match *letter {
        b'S' => system_number(digits).map(Code::Sys),
        b'U' => user_number(digits).map(Code::User),
        _ => None,
    }
}

fn system_number(digits: &[u8]) -> Option<u16>
    ensures { result ≡ system_number_in digits.now }
{
    if digits.len() == 3 {
        narrow(number_in(digits, 16))
    } else {
        None
    }
}

fn user_number(digits: &[u8]) -> Option<u16>
    ensures { result ≡ user_number_in digits.now }
{
    if digits.is_empty() || digits.len() > 4 {
        return None;
    }
    narrow(number_in(digits, 10)).filter(|number| *number <= GREATEST_NUMBER)
}

// The same number in 16 bits.
fn narrow(number: Option<u64>) -> Option<u16>
    requires { IfSome number (λ n. n < 2 ^ 16) }
    ensures { result ≡ number }
{
    match number {
        None => None,
        Some(number) => Some(number as u16),
    }
}
