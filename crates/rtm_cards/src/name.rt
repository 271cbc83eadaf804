//! Names of programs, units and labels.

ghost use Rattle.std.specs.Prelude.{◌≡◌, ◌≤◌, length, IsTrue};
ghost use Rattle.std.specs.List.{list_all};
ghost use Rattle.rtm_cards.specs.Name.{is_letter, is_name_byte, is_name};

// How many bytes a name has at most.
const MOST_NAME_BYTES: usize = 8;

fn is_letter(byte: u8) -> bool
    ensures { result ≡ is_letter byte }
{
    matches!(byte, b'A'..=b'Z' | b'@' | b'#' | b'$')
}

fn is_name_byte(byte: u8) -> bool
    ensures { result ≡ is_name_byte byte }
{
    is_letter(byte) || byte.is_ascii_digit()
}

fn are_name_bytes(text: &[u8]) -> bool
    ensures { result ≡ list_all is_name_byte text.now }
{
    text.iter().all(|byte| is_name_byte(*byte))
}

/// Whether the text is a name: 1 to 8 bytes, each a letter of A to Z, a digit or one of `@`, `#`
/// and `$`, and the first of them no digit (this profile).
pub fn is_name(text: &[u8]) -> bool
    ensures value { result ≡ is_name text.now }
    ensures short { IsTrue result → length text.now ≤ 8 }
{
    match text {
        [first, rest @ ..] => {
            is_letter(*first) && rest.len() < MOST_NAME_BYTES && are_name_bytes(rest)
        }
        [] => false,
    }
}
