//! The values of operands, as lists.

ghost use Rattle.std.specs.Prelude.{◌≡◌, ◌∷◌, []};
ghost use Rattle.std.specs.Option.{option_map};
ghost use Rattle.rtm_deck_items.specs.Items.{program_name, unit_name, related_name};

use rtm_codes::Code;
use rtm_deck_items::{Deck, Name, Res, Three};
use rtm_deck_operands::{Value, Values};

/// The value of a fixed word.
pub(crate) const WORD: Option<Value> = Some(Value::Word);

pub(crate) fn one(first: Option<Value>) -> Values
    ensures { result.items ≡ first ∷ [] }
{
    let mut values = Values::new();
    values.push(first);
    values
}

pub(crate) fn two(first: Option<Value>, second: Option<Value>) -> Values
    ensures { result.items ≡ first ∷ second ∷ [] }
{
    let mut values = one(first);
    values.push(second);
    values
}

pub(crate) fn three(first: Option<Value>, second: Option<Value>, third: Option<Value>) -> Values
    ensures { result.items ≡ first ∷ second ∷ third ∷ [] }
{
    let mut values = two(first, second);
    values.push(third);
    values
}

/// The name of the program of that number, or nothing where there is no such program.
pub(crate) fn program_name(deck: &Deck, prog: u16) -> Option<Value>
    ensures { result ≡ program_name deck.now prog }
{
    match deck.programs.get(prog as usize) {
        None => None,
        Some(program) => Some(Value::Name(program.name)),
    }
}

/// The name of the unit of that number, or nothing where there is no such unit.
pub(crate) fn unit_name(deck: &Deck, unit: u16) -> Option<Value>
    ensures { result ≡ unit_name deck.now unit }
{
    match deck.units.get(unit as usize) {
        None => None,
        Some(card) => Some(Value::Name(card.name)),
    }
}

/// The name of a related task, where there is one.
pub(crate) fn related_name(deck: &Deck, related: Option<u16>) -> Option<Value>
    ensures { result ≡ related_name deck.now related }
{
    match related {
        None => None,
        Some(unit) => unit_name(deck, unit),
    }
}

pub(crate) fn number(number: u32) -> Option<Value>
    ensures { result ≡ Some (Value.Number number) }
{
    Some(Value::Number(number))
}

pub(crate) fn name(name: &Name) -> Option<Value>
    ensures { result ≡ Some (Value.Name name.now) }
{
    Some(Value::Name(*name))
}

pub(crate) fn class_value(class: Res) -> Option<Value>
    ensures { result ≡ Some (Value.Class class) }
{
    Some(Value::Class(class))
}

pub(crate) fn code_value(code: Code) -> Option<Value>
    ensures { result ≡ Some (Value.Code code) }
{
    Some(Value::Code(code))
}

pub(crate) fn flag(flag: bool) -> Option<Value>
    ensures { result ≡ Some (Value.Flag flag) }
{
    Some(Value::Flag(flag))
}

pub(crate) fn given_reason(reason: Option<u32>) -> Option<Value>
    ensures { result ≡ option_map Value.Reason reason }
{
    reason.map(Value::Reason)
}

pub(crate) fn given_code(code: Option<Code>) -> Option<Value>
    ensures { result ≡ option_map Value.Code code }
{
    code.map(Value::Code)
}

pub(crate) fn given_label(label: Option<Name>) -> Option<Value>
    ensures { result ≡ option_map Value.Name label }
{
    label.map(Value::Name)
}

pub(crate) fn given_answer(answer: Option<Three>) -> Option<Value>
    ensures { result ≡ option_map Value.Three answer }
{
    answer.map(Value::Three)
}

pub(crate) fn given_flag(flag: Option<bool>) -> Option<Value>
    ensures { result ≡ option_map Value.Flag flag }
{
    flag.map(Value::Flag)
}

pub(crate) fn return_code(code: Option<u8>) -> Option<Value>
    ensures { result ≡ option_map Value.Number code }
{
    code.map(|code| Value::Number(u32::from(code)))
}
