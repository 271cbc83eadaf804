//! Cutting a span at a byte.

ghost use Rattle.std.specs.Prelude.{◌≡◌, ◌≤◌};
ghost use Rattle.rtm_text.specs.Cutting.{before, from_first, skip_blanks};
ghost use Rattle.rtm_cards.specs.Span.{IsWithin, text_of};

use crate::span::Span;
use rtm_text::{count_blanks, find};

/// Cuts a span in two at its first byte that is `stop`: the second half begins with that byte.
#[tactic(auto, using(crate::proofs::Spans::part_rest))]
pub fn cut_at(bytes: &[u8], whole: Span, stop: u8) -> (Span, Span)
    requires { IsWithin bytes.now whole }
    ensures first_within { IsWithin bytes.now result.0 }
    ensures second_within { IsWithin bytes.now result.1 }
    ensures first { text_of bytes.now result.0 ≡ before stop (text_of bytes.now whole) }
    ensures second { text_of bytes.now result.1 ≡ from_first stop (text_of bytes.now whole) }
    ensures start { result.0.from ≡ whole.from }
    ensures meet { result.1.from ≡ result.0.to }
    ensures end { result.1.to ≡ whole.to }
{
    let at = whole.from + find(whole.text(bytes), stop) as u32;
    let first = Span {
        from: whole.from,
        to: at,
    };
    let second = Span {
        from: at,
        to: whole.to,
    };
    (first, second)
}

/// The span without the blanks at its front.
#[tactic(auto, using(crate::proofs::Spans::part_rest))]
pub fn behind_blanks(bytes: &[u8], whole: Span) -> Span
    requires { IsWithin bytes.now whole }
    ensures within { IsWithin bytes.now result }
    ensures text { text_of bytes.now result ≡ skip_blanks (text_of bytes.now whole) }
    ensures start { whole.from ≤ result.from }
    ensures end { result.to ≡ whole.to }
{
    let from = whole.from + count_blanks(whole.text(bytes)) as u32;
    Span { from, to: whole.to }
}
