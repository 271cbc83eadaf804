//! Numbers in digits.

ghost use Rattle.std.specs.Prelude.{◌≡◌, ◌≤◌, ◌<◌, ◌^◌, ◌++◌, ◌∷◌, [], OnOk, IfSome, length, decimal};
ghost use Rattle.rtm_text.specs.Digits.{digit_char, digit_in, number_after};
ghost use Rattle.rtm_text.specs.Numeral.{decimal_of, hexadecimal_of, numeral};

use crate::bytes::push_bytes;
use crate::no_memory::NoMemory;
use itoa::Buffer;

/// The number of at most ten digits in a base of at most 16, the most significant first: 0 to 9, and then the capitals
/// A to F. None where a byte is no digit in the base.
pub fn number_in(digits: &[u8], base: u64) -> Option<u64>
    requires few_digits { length digits.now ≤ 10 }
    requires small_base { base ≤ 16 }
    ensures value { result ≡ number_after base 0 digits.now }
    ensures bound { IfSome result (λ n. n < 16 ^ length digits.now) }
{
    let mut number = 0;
    for byte in digits {
        number = number * base + digit(*byte, base)?;
    }
    Some(number)
}

// The digit that the byte stands for in the base.
fn digit(byte: u8, base: u64) -> Option<u64>
    ensures value { result ≡ digit_in base byte }
    ensures below_base { IfSome result (λ digit. digit < base) }
{
    let digit = match byte {
        b'0'..=b'9' => u64::from(byte - b'0'),
        b'A'..=b'F' => u64::from(byte - b'A') + 10,
        _ => return None,
    };
    if digit < base { Some(digit) } else { None }
}

/// The character of a digit: 0 to 9, and then A to F.
pub fn character(digit: u32) -> u8
    requires { digit < 16 }
    ensures { result ≡ digit_char digit }
{
    if digit < 10 {
        b'0' + digit as u8
    } else {
        b'A' + (digit - 10) as u8
    }
}

/// Appends the number in decimal digits, without leading zeros. The only error is want of memory.
#[tactic(auto, using(crate::proofs::NumeralLaws::decimal_of_ten))]
pub fn push_decimal(out: &mut Vec<u8>, number: u64) -> Result<(), NoMemory>
    ensures digits { OnOk result (out.new.items ≡ out.old.items ++ decimal number) }
    // The same, where it has at most ten digits.
    ensures ten { number < 10 ^ 10
        → OnOk result (out.new.items ≡ out.old.items ++ decimal_of number) }
{
    let mut buffer = Buffer::new();
    push_bytes(out, buffer.format(number).as_bytes())
}

/// Appends the number in hexadecimal digits, capitals from A on, without leading zeros. The only error is want of
/// memory.
#[tactic(auto, unfolding(crate::specs::Numeral::hexadecimal_of))]
pub fn push_hexadecimal(out: &mut Vec<u8>, number: u32) -> Result<(), NoMemory>
    ensures { OnOk result (out.new.items ≡ out.old.items ++ hexadecimal_of number) }
{
    push_numeral(out, 16, 7, number)
}

// Appends the digits of a number that has at most `others` of them before its last, without leading zeros.
fn push_numeral(out: &mut Vec<u8>, base: u32, others: u32, number: u32) -> Result<(), NoMemory>
    requires some_digits { 0 < base }
    requires few_digits { base ≤ 16 }
    ensures { OnOk result (out.new.items ≡ out.old.items ++ numeral base others number) }
{
    if others == 0 || number < base {
        return push_digit(out, number % base);
    }
    push_numeral(out, base, others - 1, number / base)?;
    push_digit(out, number % base)
}

fn push_digit(out: &mut Vec<u8>, digit: u32) -> Result<(), NoMemory>
    requires { digit < 16 }
    ensures { OnOk result (out.new.items ≡ out.old.items ++ digit_char digit ∷ []) }
{
    out.push(character(digit))?;
    Ok(())
}
