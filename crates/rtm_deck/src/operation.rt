//! What a card of a program does.

ghost use Rattle.std.specs.Prelude.{◌≡◌, true, ◌<◌, ◌^◌, option_map, IfSome, position, bytes_eq, unwrap_or};
ghost use Rattle.rtm_deck.specs.inner.Roles.{role_of, is_line};
ghost use Rattle.rtm_deck.specs.inner.Operations.{value_at, flag_in, number_in, reason_in, code_in, name_in, three_in, class_in, flag_at, number_at, byte_at, code_at, class_at, reason_at, label_at, index_in, named_number_in, named_number_at, narrow, setrp_of, plain_op, routine_op, unit_op, op_in, op_of, no_name};

use crate::seen::Seen;
use indexmap::IndexSet;
use rtm_codes::Code;
use rtm_deck_items::{CardForm, Name, Op, Res, Setrp, Three};
use rtm_deck_operands::Value;

/// Stands where a name has to stand and none does, which no card that was read leaves so.
pub(crate) const NO_NAME: Name = Name(*b"@       ");

/// The value at that place.
pub(crate) fn value_at(values: &[Option<Value>], i: usize) -> Option<Value>
    ensures { result ≡ value_at values.now i }
{
    match values.get(i) {
        None => None,
        Some(value) => *value,
    }
}

fn flag_in(value: Option<Value>) -> Option<bool>
    ensures { result ≡ flag_in value }
{
    match value {
        Some(Value::Flag(flag)) => Some(flag),
        _ => None,
    }
}

fn number_in(value: Option<Value>) -> Option<u32>
    ensures { result ≡ number_in value }
{
    match value {
        Some(Value::Number(number)) => Some(number),
        _ => None,
    }
}

fn reason_in(value: Option<Value>) -> Option<u32>
    ensures { result ≡ reason_in value }
{
    match value {
        Some(Value::Reason(reason)) => Some(reason),
        _ => None,
    }
}

fn code_in(value: Option<Value>) -> Option<Code>
    ensures { result ≡ code_in value }
{
    match value {
        Some(Value::Code(code)) => Some(code),
        _ => None,
    }
}

fn name_of_value(value: Value) -> Option<Name>
    ensures { result ≡ name_in (Some value) }
{
    match value {
        Value::Name(name) => Some(name),
        _ => None,
    }
}

fn name_in(value: Option<Value>) -> Option<Name>
    ensures { result ≡ name_in value }
{
    match value {
        None => None,
        Some(value) => name_of_value(value),
    }
}

fn three_in(value: Option<Value>) -> Option<Three>
    ensures { result ≡ three_in value }
{
    match value {
        Some(Value::Three(three)) => Some(three),
        _ => None,
    }
}

fn class_in(value: Option<Value>) -> Option<Res>
    ensures { result ≡ class_in value }
{
    match value {
        Some(Value::Class(class)) => Some(class),
        _ => None,
    }
}

pub(crate) fn flag_at(values: &[Option<Value>], i: usize) -> bool
    ensures { result ≡ flag_at values.now i }
{
    flag_in(value_at(values, i)).unwrap_or(false)
}

pub(crate) fn number_at(values: &[Option<Value>], i: usize) -> u32
    ensures { result ≡ number_at values.now i }
{
    number_in(value_at(values, i)).unwrap_or(0)
}

// A number of at most 255, else 0.
fn narrow(number: u32) -> u8
    ensures { result ≡ narrow number }
{
    if number < 256 { number as u8 } else { 0 }
}

fn byte_at(values: &[Option<Value>], i: usize) -> u8
    ensures { result ≡ byte_at values.now i }
{
    narrow(number_at(values, i))
}

fn code_at(values: &[Option<Value>], i: usize) -> Code
    ensures { result ≡ code_at values.now i }
{
    code_in(value_at(values, i)).unwrap_or(Code::Sys(0))
}

fn class_at(values: &[Option<Value>], i: usize) -> Res
    ensures { result ≡ class_at values.now i }
{
    class_in(value_at(values, i)).unwrap_or(Res::Enq)
}

fn reason_at(values: &[Option<Value>], i: usize) -> Option<u32>
    ensures { result ≡ reason_at values.now i }
{
    reason_in(value_at(values, i))
}

fn label_at(values: &[Option<Value>], i: usize) -> Name
    ensures { result ≡ label_at values.now i }
{
    match name_in(value_at(values, i)) {
        None => NO_NAME,
        Some(name) => name,
    }
}

// The number of a name among names.
fn index_in(names: &IndexSet<Name>, name: Name) -> u16
    ensures { result ≡ index_in names.now.keys name }
{
    let index = names.get_index_of(&name).unwrap_or(0);
    if index < 65536 { index as u16 } else { 0 }
}

/// The number of the program or unit that the value names, if there is one.
pub(crate) fn named_number_in(names: &IndexSet<Name>, value: Option<Value>) -> Option<u16>
    ensures { result ≡ named_number_in names.now.keys value }
{
    match name_in(value) {
        None => None,
        Some(name) => Some(index_in(names, name)),
    }
}

pub(crate) fn named_number_at(names: &IndexSet<Name>, values: &[Option<Value>], i: usize) -> u16
    ensures { result ≡ named_number_at names.now.keys values.now i }
{
    named_number_in(names, value_at(values, i)).unwrap_or(0)
}

fn rc_in(value: Option<Value>) -> Option<u8>
    ensures { result ≡ option_map narrow (number_in value) }
{
    match number_in(value) {
        None => None,
        Some(number) => Some(narrow(number)),
    }
}

// The options of a SETRP card.
fn setrp_of(values: &[Option<Value>]) -> Setrp
    ensures { result ≡ setrp_of values.now }
{
    Setrp {
        rc: rc_in(value_at(values, 0)),
        retaddr: name_in(value_at(values, 1)),
        remrec: flag_in(value_at(values, 2)),
        compcod: code_in(value_at(values, 3)),
        reason: reason_at(values, 4),
        dump: three_in(value_at(values, 5)),
        logrec: three_in(value_at(values, 6)),
        fresdwa: flag_in(value_at(values, 7)),
    }
}

// What a card does by itself, or with a program as its next; none for other cards.
fn plain_op(seen: &Seen, form: CardForm, values: &[Option<Value>]) -> Option<Op>
    ensures { result ≡ plain_op seen.now form values.now }
{
    match form {
        CardForm::Nop => Some(Op::Nop),
        CardForm::Get => Some(Op::Get {
            class: class_at(values, 0),
            id: number_at(values, 1),
        }),
        CardForm::Free => Some(Op::Free {
            class: class_at(values, 0),
            id: number_at(values, 1),
        }),
        CardForm::Link => Some(Op::Link {
            prog: named_number_at(&seen.programs, values, 0),
        }),
        CardForm::Xctl => Some(Op::Xctl {
            prog: named_number_at(&seen.programs, values, 0),
        }),
        CardForm::Return => Some(Op::Return),
        CardForm::Abend => Some(Op::Abend {
            code: code_at(values, 0),
            reason: reason_at(values, 1),
            dump: flag_at(values, 2),
            step: flag_at(values, 3),
        }),
        CardForm::Wait => Some(Op::Wait {
            event: byte_at(values, 0),
        }),
        CardForm::Post => Some(Op::Post {
            event: byte_at(values, 0),
        }),
        CardForm::SetRp => Some(Op::SetRp(setrp_of(values))),
        CardForm::Ret15 => Some(Op::Ret15 {
            rc: byte_at(values, 0),
            label: name_in(value_at(values, 1)),
        }),
        _ => None,
    }
}

// What a card does with a recovery routine or a resource manager; none for other cards.
fn routine_op(seen: &Seen, form: CardForm, values: &[Option<Value>]) -> Option<Op>
    ensures { result ≡ routine_op seen.now form values.now }
{
    match form {
        CardForm::EstaexCt => Some(Op::EstaexCt {
            prog: named_number_at(&seen.programs, values, 1),
            term: flag_at(values, 2),
            cancel: flag_at(values, 3),
            xctl: flag_at(values, 4),
        }),
        CardForm::EstaexOv => Some(Op::EstaexOv {
            prog: named_number_at(&seen.programs, values, 1),
            term: flag_at(values, 2),
            cancel: flag_at(values, 3),
            xctl: flag_at(values, 4),
        }),
        CardForm::EstaexZero => Some(Op::EstaexZero),
        CardForm::FrrAdd => Some(Op::FrrAdd {
            prog: named_number_at(&seen.programs, values, 1),
        }),
        CardForm::FrrDelete => Some(Op::FrrDelete),
        CardForm::FrrReplace => Some(Op::FrrReplace {
            prog: named_number_at(&seen.programs, values, 1),
        }),
        CardForm::FrrPurge => Some(Op::FrrPurge),
        CardForm::MgrAdd => Some(Op::MgrAdd {
            prog: named_number_at(&seen.programs, values, 1),
            space: flag_at(values, 2),
        }),
        CardForm::MgrDelete => Some(Op::MgrDelete {
            prog: named_number_at(&seen.programs, values, 1),
            space: flag_at(values, 2),
        }),
        _ => None,
    }
}

// What a card does to a unit of work, or by a label; none for other cards.
fn unit_op(seen: &Seen, form: CardForm, values: &[Option<Value>]) -> Option<Op>
    ensures { result ≡ unit_op seen.now form values.now }
{
    match form {
        CardForm::Attachx => Some(Op::Attachx {
            unit: named_number_at(&seen.units, values, 0),
            estai: None,
            term: false,
        }),
        CardForm::AttachxEstai => Some(Op::Attachx {
            unit: named_number_at(&seen.units, values, 0),
            estai: Some(named_number_at(&seen.programs, values, 1)),
            term: flag_at(values, 2),
        }),
        CardForm::Detach => Some(Op::Detach {
            unit: named_number_at(&seen.units, values, 0),
            stae: flag_at(values, 1),
        }),
        CardForm::Abterm => Some(Op::Abterm {
            unit: named_number_at(&seen.units, values, 1),
            code: code_at(values, 2),
            reason: reason_at(values, 3),
            dump: flag_at(values, 4),
            retry: flag_at(values, 5),
        }),
        CardForm::Memterm => Some(Op::Memterm {
            code: code_at(values, 1),
        }),
        CardForm::Schedule => Some(Op::Schedule {
            unit: named_number_at(&seen.units, values, 0),
        }),
        CardForm::WaitTask => Some(Op::WaitTask {
            unit: named_number_at(&seen.units, values, 0),
        }),
        CardForm::Branch => Some(Op::Branch {
            label: label_at(values, 0),
        }),
        CardForm::IfCode => Some(Op::IfCode {
            code: code_at(values, 0),
            label: label_at(values, 1),
        }),
        CardForm::IfClup => Some(Op::IfClup {
            label: label_at(values, 0),
        }),
        CardForm::IfPerc => Some(Op::IfPerc {
            label: label_at(values, 0),
        }),
        _ => None,
    }
}

// What the card does, if it is one of a program, with the numbers of the programs and units that it names.
fn op_in(seen: &Seen, form: CardForm, values: &[Option<Value>]) -> Option<Op>
    ensures { result ≡ op_in seen.now form values.now }
{
    if let Some(op) = plain_op(seen, form, values) {
        return Some(op);
    }
    if let Some(op) = routine_op(seen, form, values) {
        return Some(op);
    }
    unit_op(seen, form, values)
}

/// What the card of a program does.
pub(crate) fn op_of(seen: &Seen, form: CardForm, values: &[Option<Value>]) -> Op
    requires { is_line (role_of form) ≡ true }
    ensures { result ≡ op_of seen.now form values.now }
{
    match op_in(seen, form, values) {
        Some(op) => op,
        None => unreachable!("each form of a program's card is of some family"),
    }
}
