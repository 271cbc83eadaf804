//! What is written of an input whose deck has a fault.

ghost use Rattle.std.specs.Prelude.{◌≡◌, ◌++◌, IfOk, OnOk};
ghost use Rattle.rtm_top_answers.specs.Refusal.{refusal, refusal_text, why_text};

use crate::answer::Answer;
use crate::status::Status;
use rtm_codes::NoMemory;
use rtm_deck_items::Why;
use rtm_trace::push;
use std::alloc::Global;

fn why_text(why: Why) -> &'static [u8]
    ensures { result.now ≡ why_text why }
{
    match why {
        Why::TooLong => b"TooLong",
        Why::BadByte => b"BadByte",
        Why::BadCard => b"BadCard",
        Why::UnknownOp => b"UnknownOp",
        Why::BadOperand => b"BadOperand",
        Why::DuplicateName => b"DuplicateName",
        Why::UnknownName => b"UnknownName",
        Why::UnknownLabel => b"UnknownLabel",
        Why::WrongPlace => b"WrongPlace",
        Why::NoJobStep => b"NoJobStep",
        Why::NoEnd => b"NoEnd",
        Why::OverLimit => b"OverLimit",
    }
}

fn push_refusal(out: &mut Vec<u8>, card: u32, why: Why) -> Result<(), NoMemory>
    ensures { OnOk result (out.new.items ≡ out.old.items ++ refusal_text card why) }
{
    push::bytes(out, b"DECK ")?;
    push::number(out, u64::from(card))?;
    push::bytes(out, b" ")?;
    push::bytes(out, why_text(why))?;
    push::bytes(out, b"\n")
}

/// The answer that names a fault of the deck and its card, whose number is from 1.
pub fn refusal(alloc: Global, card: u32, why: Why) -> Result<Answer, NoMemory>
    ensures { IfOk result (λ answer. answer ≡ refusal card why) }
{
    let mut text = Vec::new(alloc);
    push_refusal(&mut text, card, why)?;
    Ok(Answer {
        text,
        status: Status::Deck,
    })
}
