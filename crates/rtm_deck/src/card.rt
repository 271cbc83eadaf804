//! Reading one card.

ghost use Rattle.std.specs.Prelude.{◌≡◌, ◌≤◌, ℕ, List, length, map, option_map, Option, Some, None, IfSome};
ghost use Rattle.std.specs.List.{AllByRecursion};
ghost use Rattle.rtm_cards.specs.Span.{IsWithin, text_of};
ghost use Rattle.rtm_cards.specs.Cards.{card_text, HasSpansIn};
ghost use Rattle.rtm_deck_items.specs.Forms.{form_named, operation_of, needs_some};
ghost use Rattle.rtm_deck_operands.specs.declared.value.Value.{Value};
ghost use Rattle.rtm_deck_operands.specs.Slot.{IsWellMade};
ghost use Rattle.rtm_deck.specs.inner.Roles.{role_of};
ghost use Rattle.rtm_deck.specs.inner.Seen.{values_if_read, read_all, read_by, reading_of, reading_as, reading_in, reading_by, AreEnough, read_in, read_card, read_with, read_known};

use crate::role::{Role, role_of};
use crate::seen::Seen;
use arrayvec::ArrayVec;
use rtm_cards::{Card, Span};
use rtm_deck_items::{CardForm, Name, Why, all_forms};
use rtm_deck_operands::{Slot, Value, Values, name_of, read_operands};
use std::marker::Model;

/// A card that was read.
#[derive(Drop)]
pub(crate) struct Read {
    pub(crate) number: u32,
    pub(crate) name: Option<Name>,
    pub(crate) form: CardForm,
    pub(crate) values: Values,
}

impl Model for Read {
    ghost use Rattle.rtm_deck.specs.inner.View.{ReadView};

    ghost Value = { ReadView };

    ghost view = { λ a.
        record { number = a.number; name = a.name; form = a.form; values = a.values.items } };
}

static ESTAEX: [CardForm; 3] = [CardForm::EstaexCt, CardForm::EstaexOv, CardForm::EstaexZero];

static SETFRR: [CardForm; 4] = [
    CardForm::FrrAdd,
    CardForm::FrrDelete,
    CardForm::FrrReplace,
    CardForm::FrrPurge,
];

static ATTACHX: [CardForm; 2] = [CardForm::Attachx, CardForm::AttachxEstai];

static CALLRTM: [CardForm; 2] = [CardForm::Abterm, CardForm::Memterm];

static RESMGR: [CardForm; 2] = [CardForm::MgrAdd, CardForm::MgrDelete];

// The first form of that operation.
fn form_named(op: &[u8]) -> Option<CardForm>
    ensures { result ≡ form_named op.now }
{
    all_forms()
        .iter()
        .copied()
        .find(|form| form.operation() == op)
}

// Whether some operand has to stand on a card of that form though none is needed.
fn needs_some(form: CardForm) -> bool
    ensures { result ≡ needs_some form }
{
    matches!(form, CardForm::Region | CardForm::SetRp)
}

// Puts the values of a card's operands in place of those that are there, and says whether there are any; without slots
// all that follows is a remark.
fn read_all(bytes: &[u8], operands: &[Span], slots: &[Slot], values: &mut Values) -> bool
    requires within { AllByRecursion (IsWithin bytes.now) operands.now }
    requires table { IsWellMade slots.now }
    ensures { values_if_read result values.new.items
        ≡ read_all slots.now (map (text_of bytes.now) operands.now) }
{
    if slots.is_empty() {
        *values = ArrayVec::new();
        return true;
    }
    match read_operands(bytes, operands, slots) {
        None => false,
        Some(read) => {
            *values = read;
            true
        }
    }
}

// The same, where operands stand there or none has to.
fn read_by(
    bytes: &[u8],
    operands: &[Span],
    slots: &[Slot],
    wanted: bool,
    values: &mut Values,
) -> bool
    requires within { AllByRecursion (IsWithin bytes.now) operands.now }
    requires table { IsWellMade slots.now }
    ensures { values_if_read result values.new.items
        ≡ read_by slots.now wanted (map (text_of bytes.now) operands.now) }
{
    (!wanted || !operands.is_empty()) && read_all(bytes, operands, slots, values)
}

// The same by the slots of that form, if the card has its operation.
fn read_as(bytes: &[u8], op: &[u8], operands: &[Span], form: CardForm, values: &mut Values) -> bool
    requires { AllByRecursion (IsWithin bytes.now) operands.now }
    ensures { reading_of form (values_if_read result values.new.items)
        ≡ reading_as op.now (map (text_of bytes.now) operands.now) form }
{
    form.operation() == op && read_by(bytes, operands, form.slots(), needs_some(form), values)
}

// The forms of that operation, in their order; all forms where none has it.
fn forms_of(op: &[u8]) -> &'static [CardForm]
    ensures { AreEnough op.now result.now }
{
    match op {
        b"REGION" => &[CardForm::Region],
        b"PROG" => &[CardForm::Prog],
        b"PEND" => &[CardForm::Pend],
        b"TASK" => &[CardForm::Task],
        b"SRB" => &[CardForm::Srb],
        b"OPER" => &[CardForm::Oper],
        b"CANCEL" => &[CardForm::Cancel],
        b"END" => &[CardForm::End],
        b"NOP" => &[CardForm::Nop],
        b"GET" => &[CardForm::Get],
        b"FREE" => &[CardForm::Free],
        b"LINK" => &[CardForm::Link],
        b"XCTL" => &[CardForm::Xctl],
        b"RETURN" => &[CardForm::Return],
        b"ABEND" => &[CardForm::Abend],
        b"ESTAEX" => &ESTAEX,
        b"SETFRR" => &SETFRR,
        b"ATTACHX" => &ATTACHX,
        b"DETACH" => &[CardForm::Detach],
        b"CALLRTM" => &CALLRTM,
        b"RESMGR" => &RESMGR,
        b"SCHEDULE" => &[CardForm::Schedule],
        b"WAIT" => &[CardForm::Wait],
        b"WAITT" => &[CardForm::WaitTask],
        b"POST" => &[CardForm::Post],
        b"SETRP" => &[CardForm::SetRp],
        b"RET15" => &[CardForm::Ret15],
        b"B" => &[CardForm::Branch],
        b"IFCODE" => &[CardForm::IfCode],
        b"IFCLUP" => &[CardForm::IfClup],
        b"IFPERC" => &[CardForm::IfPerc],
        _ => all_forms(),
    }
}

// The first form that reads the operands, with the values that it reads.
fn first_reading(
    bytes: &[u8],
    op: &[u8],
    operands: &[Span],
    forms: &[CardForm],
    values: &mut Values,
) -> Option<CardForm>
    requires { AllByRecursion (IsWithin bytes.now) operands.now }
    ensures { reading_in result values.new.items
        ≡ reading_by op.now (map (text_of bytes.now) operands.now) forms.now }
{
    for form in forms {
        if read_as(bytes, op, operands, *form, values) {
            return Some(*form);
        }
    }
    None
}

// The role of the cards of that operation. A form of it that is known already saves the search for the first: all have
// one role.
fn role_named(op: &[u8], known: Option<CardForm>) -> Option<Role>
    requires { IfSome known (λ form. operation_of form ≡ op.now) }
    ensures { result ≡ option_map role_of (form_named op.now) }
{
    if let Some(form) = known {
        return Some(role_of(form));
    }
    match form_named(op) {
        None => None,
        Some(form) => Some(role_of(form)),
    }
}

// The name and the form of a card that breaks no rule.
fn read_with(
    name: Option<Name>,
    form: Option<CardForm>,
    broken: Option<Why>,
) -> Result<(Option<Name>, CardForm), Why>
    ensures { (number : ℕ) (values : List (Option Value)) →
        read_in number result values ≡ read_with number name (reading_in form values) broken }
{
    if let Some(why) = broken {
        return Err(why);
    }
    match form {
        None => Err(Why::BadOperand),
        Some(form) => Ok((name, form)),
    }
}

/// The name, the form and the values of a card, as it is read behind the others, or the first rule of form that it
/// breaks.
pub(crate) fn read_card(
    seen: &Seen,
    bytes: &[u8],
    card: &Card,
    values: &mut Values,
) -> Result<(Option<Name>, CardForm), Why>
    requires { HasSpansIn bytes.now card.now }
    ensures { read_in card.now.number result values.new.items
        ≡ read_card seen.now (card_text bytes.now card.now) }
{
    let op = card.op.text(bytes);
    let name = name_of(card.name.text(bytes));
    let form = first_reading(bytes, op, &card.operands, forms_of(op), values);
    match role_named(op, form) {
        None => Err(Why::UnknownOp),
        Some(role) => {
            let broken = seen.broken_rule(role, &name, form.is_some());
            read_with(name, form, broken)
        }
    }
}
