//! The field of a retry label: eight bytes, which are a name with its padding, or blanks where there is no label.

ghost use Rattle.std.specs.Prelude.{◌≡◌, ◌==◌, ◌≤◌, length, Some, None, if◌then◌else◌};
ghost use Rattle.std.specs.List.{list_all};
ghost use Rattle.rtm_deck_operands.specs.Name.{is_padded_name, trimmed_text};
ghost use Rattle.rtm_sdwa.specs.Bytes.{label_field};

use rtm_cards::is_name;
use rtm_deck_items::Name;

/// How many bytes a name has with its padding.
pub(crate) const FIELD_LEN: usize = 8;

/// The bytes of the field of that label.
pub(crate) fn label_field(label: Option<Name>) -> [u8; FIELD_LEN]
    ensures { result ≡ label_field label }
{
    match label {
        Some(name) => name.0,
        None => [b' '; FIELD_LEN],
    }
}

/// The name that stands in the field; none where no name does.
pub(crate) fn label_in(field: [u8; FIELD_LEN]) -> Option<Name>
    ensures { result ≡ (if is_padded_name field then Some field else None) }
{
    if is_padded_name(&field) {
        Some(Name(field))
    } else {
        None
    }
}

#[tactic(auto, using(crate::proofs::Trimming::take_trimmed))]
fn is_padded_name(bytes: &[u8]) -> bool
    ensures { result ≡ is_padded_name bytes.now }
{
    let (name, padding) = bytes.split_at(trimmed_len(bytes));
    bytes.len() == FIELD_LEN && is_name(name) && is_padding(padding)
}

fn is_padding(bytes: &[u8]) -> bool
    ensures { result ≡ list_all (λ byte. byte == 32) bytes.now }
{
    bytes.iter().all(|byte| *byte == b' ')
}

fn trimmed_len(bytes: &[u8]) -> usize
    ensures value { result ≡ length (trimmed_text bytes.now) }
    ensures bound { result ≤ length bytes.now }
{
    bytes.iter().take_while(|byte| **byte != b' ').count()
}
