//! The cards of an input.

ghost use Rattle.std.specs.Prelude.{◌≡◌, ◌+◌, ◌<◌, ◌∷◌};
ghost use Rattle.rtm_cards.specs.Span.{IsWithin, text_of};
ghost use Rattle.rtm_cards.specs.Lines.{lines_of};

use crate::scan::cut_at;
use crate::span::Span;

/// Cuts off the first card: the card, and what stands behind its line feed.
pub fn cut_line(bytes: &[u8], rest: Span) -> (Span, Span)
    requires within { IsWithin bytes.now rest }
    requires more { rest.from < rest.to }
    ensures first_within { IsWithin bytes.now result.0 }
    ensures second_within { IsWithin bytes.now result.1 }
    ensures lines { lines_of (text_of bytes.now rest)
        ≡ text_of bytes.now result.0 ∷ lines_of (text_of bytes.now result.1) }
    ensures start { result.0.from ≡ rest.from }
    ensures next { result.1.from < result.1.to → result.1.from ≡ result.0.to + 1 }
    ensures end { result.1.to ≡ rest.to }
    ensures shorter { rest.from < result.1.from }
{
    let (line, behind) = cut_at(bytes, rest, b'\n');
    if behind.is_empty() {
        return (line, behind);
    }
    let behind = Span {
        from: behind.from + 1,
        to: behind.to,
    };
    (line, behind)
}
