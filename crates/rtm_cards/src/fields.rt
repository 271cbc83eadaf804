//! The fields of a card.

ghost use Rattle.std.specs.Prelude.{◌≡◌, ◌+◌, ◌-◌, length};
ghost use Rattle.rtm_cards.specs.Text.{blank, before};
ghost use Rattle.rtm_cards.specs.Span.{IsWithin, text_of};
ghost use Rattle.rtm_cards.specs.Fields.{name_of, from_op, op_of, from_operands};

use crate::scan::{behind_blanks, cut_at};
use crate::span::Span;

/// Where the fields of a card lie. A field that is left out has no bytes.
#[derive(Clone, Copy)]
pub struct Fields {
    pub name: Span,
    pub op: Span,
    pub operands: Span,
}

/// The fields of the card that the span holds.
pub fn fields_of(bytes: &[u8], card: Span) -> Fields
    requires { IsWithin bytes.now card }
    ensures name_within { IsWithin bytes.now result.name }
    ensures op_within { IsWithin bytes.now result.op }
    ensures operands_within { IsWithin bytes.now result.operands }
    ensures name { text_of bytes.now result.name ≡ name_of (text_of bytes.now card) }
    ensures op { text_of bytes.now result.op ≡ op_of (text_of bytes.now card) }
    ensures operands { text_of bytes.now result.operands
        ≡ before blank (from_operands (text_of bytes.now card)) }
    ensures name_start { result.name.from ≡ card.from }
    ensures op_start { let text = text_of bytes.now card in
        result.op.from ≡ card.from + (length text - length (from_op text)) }
    ensures operands_start { let text = text_of bytes.now card in
        result.operands.from ≡ card.from + (length text - length (from_operands text)) }
{
    let (name, rest) = cut_at(bytes, card, b' ');
    let (op, rest) = cut_at(bytes, behind_blanks(bytes, rest), b' ');
    let (operands, _) = cut_at(bytes, behind_blanks(bytes, rest), b' ');
    Fields { name, op, operands }
}
