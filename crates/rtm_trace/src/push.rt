//! Text at the end of a buffer.

ghost use Rattle.std.specs.Prelude.{◌≡◌, ◌++◌, ◌≤◌, decimal, length, OnOk};
ghost use Rattle.rtm_codes.specs.Code.{IsInRange, text_of};
ghost use Rattle.rtm_deck_operands.specs.Name.{trimmed_text};
ghost use Rattle.rtm_trace.specs.Text.{reason_digits, flag_text};

use rtm_codes::{Code, NoMemory, code_text};
use rtm_deck_items::Name;
use rtm_text::character;
pub use rtm_text::{push_bytes as bytes, push_decimal as number};

/// Puts the text of a completion code.
pub fn code(out: &mut Vec<u8>, code: Code) -> Result<(), NoMemory>
    requires { IsInRange code }
    ensures { OnOk result (out.new.items ≡ out.old.items ++ text_of code) }
{
    let text = code_text(code);
    bytes(out, text.as_slice())
}

/// Puts the text where the flag stands.
pub fn flag(out: &mut Vec<u8>, flag: bool, text: &[u8]) -> Result<(), NoMemory>
    ensures { OnOk result (out.new.items ≡ out.old.items ++ flag_text flag text.now) }
{
    if flag { bytes(out, text) } else { Ok(()) }
}

/// Puts the eight hexadecimal digits of a reason code.
#[tactic(auto, unfolding(crate::specs::Text::reason_digits))]
pub fn reason_digits(out: &mut Vec<u8>, n: u32) -> Result<(), NoMemory>
    ensures { OnOk result (out.new.items ≡ out.old.items ++ reason_digits n) }
{
    let digits = [
        character(n / 268435456 % 16),
        character(n / 16777216 % 16),
        character(n / 1048576 % 16),
        character(n / 65536 % 16),
        character(n / 4096 % 16),
        character(n / 256 % 16),
        character(n / 16 % 16),
        character(n % 16),
    ];
    bytes(out, &digits)
}

// How many bytes of the field stand before its first blank.
fn len_of(field: &[u8]) -> usize
    ensures { result ≡ length (trimmed_text field.now) }
{
    field.iter().take_while(|b| **b != b' ').count()
}

/// A name without its padding.
#[tactic(auto, using(crate::proofs::Front::take_front))]
pub(crate) fn name_text(name: &Name) -> &[u8]
    ensures text { result.now ≡ trimmed_text name.now }
    ensures few { length result.now ≤ 8 }
{
    let field = &name.0;
    let (text, _blanks) = field.split_at(len_of(field));
    text
}

/// Puts a name without its padding.
#[tactic(auto, using(crate::proofs::Pieces::name_whole))]
pub fn name(out: &mut Vec<u8>, name: &Name) -> Result<(), NoMemory>
    ensures { OnOk result (out.new.items ≡ out.old.items ++ trimmed_text name.now) }
{
    let before = out.len();
    out.extend_from_slice(&name.0)?;
    out.truncate(before + len_of(&name.0));
    Ok(())
}

/// Puts the number in decimal digits, in the quickest way where they are one or two.
#[inline(always)]
#[tactic(auto, using(crate::proofs::Pieces::one_digit, crate::proofs::Pieces::two_digits))]
pub(crate) fn small_number(out: &mut Vec<u8>, n: u16) -> Result<(), NoMemory>
    ensures { OnOk result (out.new.items ≡ out.old.items ++ decimal n) }
{
    if n < 10 {
        return Ok(out.extend_from_slice(&[b'0' + n as u8])?);
    }
    if n < 100 {
        let digits = [b'0' + (n / 10) as u8, b'0' + (n % 10) as u8];
        return Ok(out.extend_from_slice(&digits)?);
    }
    number(out, u64::from(n))
}
