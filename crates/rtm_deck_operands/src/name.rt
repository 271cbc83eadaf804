//! Names of programs, units and labels.

ghost use Rattle.std.specs.Prelude.{◌≡◌, ◌≤◌, length, take};
ghost use Rattle.rtm_deck_operands.specs.Name.{padded_text, trimmed_text, name_in};

use rtm_cards::is_name;
use std::marker::Model;

// How many bytes a name has with its padding.
const PADDED_LEN: usize = 8;

/// A name of a program, a unit or a label: 1 to 8 characters, padded with blanks to 8.
///
/// Each character is `A` to `Z`, `0` to `9`, `@`, `#` or `$`, and the first is no digit (this profile).
#[derive(Clone, Copy, Debug, PartialEq, Eq, Hash)]
pub struct Name(pub [u8; 8]);

impl Model for Name {
    ghost use Rattle.std.specs.Prelude.{ℕ, List, IsTrue};
    ghost use Rattle.rtm_deck_operands.specs.Name.{is_padded_name};

    ghost Value = { List ℕ };

    ghost view = { λ a. a.0 };

    ghost invariant = { λ a. IsTrue (is_padded_name a.0) };

    ghost inverse = { λ bytes. record { 0 = bytes } };
}

/// The name that a text is, padded with blanks; `None` for every other text.
pub fn name_of(text: &[u8]) -> Option<Name>
    ensures { result ≡ name_in text.now }
{
    if !is_name(text) {
        return None;
    }
    let bytes = padded_text(text);
    Some(Name(bytes))
}

// The bytes of a name, with blanks behind it up to eight bytes.
fn padded_text(name: &[u8]) -> [u8; PADDED_LEN]
    requires { length name.now ≤ 8 }
    ensures { result ≡ padded_text name.now }
{
    let mut bytes = [b' '; PADDED_LEN];
    for (i, byte) in name.iter().enumerate() {
        bytes[i] = *byte;
    }
    bytes
}

/// What a field has before its first blank.
pub(crate) fn trimmed_text(bytes: &[u8]) -> &[u8]
    ensures { result.now ≡ trimmed_text bytes.now }
{
    let (front, _) = bytes.split_at(blank_in(bytes));
    front
}

// Where the first blank stands, or the length.
fn blank_in(bytes: &[u8]) -> usize
    ensures within { result ≤ length bytes.now }
    ensures front { take result bytes.now ≡ trimmed_text bytes.now }
{
    for (i, byte) in bytes.iter().enumerate() {
        if *byte == b' ' {
            return i;
        }
    }
    bytes.len()
}
