//! The operands that no slot has taken yet.

ghost use Rattle.std.specs.Prelude.{◌≡◌, ◌<◌, length, map, IfSome, IfNone};
ghost use Rattle.rtm_cards.specs.Span.{IsWithin, text_of};
ghost use Rattle.rtm_deck_operands.specs.inner.Part.{span_of};

use crate::slot::MOST_SLOTS;
use arrayvec::ArrayVec;
use rtm_cards::Span;

/// A span as an element of a vector of fixed capacity, which asks for a default.
#[derive(Clone, Copy, Default)]
pub(crate) struct Part {
    from: u32,
    to: u32,
}

impl Part {
    /// The bytes of the part.
    pub(crate) fn text(self, bytes: &[u8]) -> &[u8]
        requires { IsWithin bytes.now (span_of self) }
        ensures { result.now ≡ text_of bytes.now (span_of self) }
    {
        let span = Span {
            from: self.from,
            to: self.to,
        };
        span.text(bytes)
    }
}

/// Those spans, if there are no more of them than slots of a table.
pub(crate) fn parts_of(operands: &[Span]) -> Option<ArrayVec<Part, MOST_SLOTS>>
    ensures spans { IfSome result (λ parts. map span_of parts.items ≡ operands.now) }
    ensures many { IfNone result (8 < length operands.now) }
{
    if operands.len() > MOST_SLOTS {
        return None;
    }
    let mut parts = ArrayVec::new();
    for operand in operands {
        parts.push(Part {
            from: operand.from,
            to: operand.to,
        });
    }
    Some(parts)
}
