//! The operands of a card.

ghost use Rattle.std.specs.Prelude.{◌≡◌, ◌+◌, [], ◌∷◌, map, MatchOption, IfSome, IfOk};
ghost use Rattle.std.specs.List.{AllByRecursion};
ghost use Rattle.rtm_cards.specs.Span.{IsWithin, text_of, StandInRow};
ghost use Rattle.rtm_cards.specs.Fields.{split_at_commas, parts_of};

use crate::fault::CardFault;
use crate::scan::cut_at;
use crate::span::Span;
use std::alloc::Global;

// The part before the first comma, and what stands behind that comma, if there is one.
fn cut_part(bytes: &[u8], rest: Span) -> (Span, Option<Span>)
    requires { IsWithin bytes.now rest }
    ensures first_within { IsWithin bytes.now result.0 }
    ensures behind_within { IfSome result.1 (IsWithin bytes.now) }
    ensures parts { MatchOption result.1
        (split_at_commas (text_of bytes.now rest) ≡ text_of bytes.now result.0 ∷ [])
        (λ behind. split_at_commas (text_of bytes.now rest)
        ≡ text_of bytes.now result.0 ∷ split_at_commas (text_of bytes.now behind)) }
    ensures start { result.0.from ≡ rest.from }
    ensures next { IfSome result.1
        (λ behind. (behind.from ≡ result.0.to + 1) × (behind.to ≡ rest.to)) }
{
    let (part, behind) = cut_at(bytes, rest, b',');
    if behind.is_empty() {
        return (part, None);
    }
    let behind = Span {
        from: behind.from + 1,
        to: behind.to,
    };
    (part, Some(behind))
}

/// The parts of an operand field between its commas.
pub fn operands_of(alloc: Global, bytes: &[u8], field: Span) -> Result<Vec<Span>, CardFault>
    requires { IsWithin bytes.now field }
    ensures texts { IfOk result
        (λ v. map (text_of bytes.now) v.items ≡ parts_of (text_of bytes.now field)) }
    ensures within { IfOk result (λ v. AllByRecursion (IsWithin bytes.now) v.items) }
    ensures places { IfOk result (λ v. StandInRow field.from v.items) }
{
    let mut operands = Vec::new(alloc);
    if field.is_empty() {
        return Ok(operands);
    }
    let mut rest = field;
    'parts: loop {
        let (part, behind) = cut_part(bytes, rest);
        operands.push(part)?;
        match behind {
            None => return Ok(operands),
            Some(next) => rest = next,
        }
    }
}
