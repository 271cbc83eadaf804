//! The form of an operation's card, and the values of its operands.

ghost use Rattle.std.specs.Prelude.{IsTrue, ◌≡◌, ◌∷◌, []};
ghost use Rattle.std.specs.Option.{option_map};
ghost use Rattle.rtm_deck_canon.specs.Groups.{is_request, names_unit};
ghost use Rattle.rtm_deck_items.specs.Items.{some, form_of_op, values_of_op};

use crate::value::{
    WORD, class_value, code_value, flag, given_answer, given_code, given_flag, given_label,
    given_reason, name, number, one, program_name, return_code, three, two, unit_name,
};
use rtm_codes::Code;
use rtm_deck_items::{CardForm, Deck, Op, Setrp};
use rtm_deck_operands::{Value, Values};

/// The form of the card of an operation.
pub(crate) fn form_of_op(op: Op) -> CardForm
    ensures { result ≡ form_of_op op }
{
    match op {
        Op::Nop => CardForm::Nop,
        Op::Get { .. } => CardForm::Get,
        Op::Free { .. } => CardForm::Free,
        Op::Link { .. } => CardForm::Link,
        Op::Xctl { .. } => CardForm::Xctl,
        Op::Return => CardForm::Return,
        Op::Abend { .. } => CardForm::Abend,
        Op::EstaexCt { .. } => CardForm::EstaexCt,
        Op::EstaexOv { .. } => CardForm::EstaexOv,
        Op::EstaexZero => CardForm::EstaexZero,
        Op::FrrAdd { .. } => CardForm::FrrAdd,
        Op::FrrDelete => CardForm::FrrDelete,
        Op::FrrReplace { .. } => CardForm::FrrReplace,
        Op::FrrPurge => CardForm::FrrPurge,
        Op::Attachx { estai: None, .. } => CardForm::Attachx,
        Op::Attachx { estai: Some(_), .. } => CardForm::AttachxEstai,
        Op::Detach { .. } => CardForm::Detach,
        Op::Abterm { .. } => CardForm::Abterm,
        Op::Memterm { .. } => CardForm::Memterm,
        Op::MgrAdd { .. } => CardForm::MgrAdd,
        Op::MgrDelete { .. } => CardForm::MgrDelete,
        Op::Schedule { .. } => CardForm::Schedule,
        Op::Wait { .. } => CardForm::Wait,
        Op::WaitTask { .. } => CardForm::WaitTask,
        Op::Post { .. } => CardForm::Post,
        Op::SetRp(_) => CardForm::SetRp,
        Op::Ret15 { .. } => CardForm::Ret15,
        Op::Branch { .. } => CardForm::Branch,
        Op::IfCode { .. } => CardForm::IfCode,
        Op::IfClup { .. } => CardForm::IfClup,
        Op::IfPerc { .. } => CardForm::IfPerc,
    }
}

/// The values of the operands of an operation's card, in the order of its form.
pub(crate) fn values_of_op(deck: &Deck, op: &Op) -> Values
    ensures { result.items ≡ values_of_op deck.now op.now }
{
    match op {
        Op::Nop | Op::Return => Values::new(),
        Op::Get { class, id } | Op::Free { class, id } => two(class_value(*class), number(*id)),
        Op::Link { prog } | Op::Xctl { prog } => one(program_name(deck, *prog)),
        Op::Wait { event } | Op::Post { event } => one(number(u32::from(*event))),
        Op::SetRp(setrp) => setrp_values(setrp),
        Op::Ret15 { rc, label } => two(number(u32::from(*rc)), given_label(*label)),
        Op::Branch { label } | Op::IfClup { label } | Op::IfPerc { label } => one(name(label)),
        Op::IfCode { code, label } => two(code_value(*code), name(label)),
        Op::Abend { .. }
        | Op::EstaexCt { .. }
        | Op::EstaexOv { .. }
        | Op::EstaexZero
        | Op::FrrAdd { .. }
        | Op::FrrDelete
        | Op::FrrReplace { .. }
        | Op::FrrPurge
        | Op::MgrAdd { .. }
        | Op::MgrDelete { .. } => values_of_request(deck, op),
        Op::Attachx { .. }
        | Op::Detach { .. }
        | Op::Abterm { .. }
        | Op::Memterm { .. }
        | Op::Schedule { .. }
        | Op::WaitTask { .. } => values_of_unit_op(deck, op),
    }
}

// The same, of an abnormal end or a request for recovery or for a resource manager.
fn values_of_request(deck: &Deck, op: &Op) -> Values
    requires { IsTrue (is_request op.now) }
    ensures { result.items ≡ values_of_op deck.now op.now }
{
    match op {
        Op::Abend {
            code,
            reason,
            dump,
            step,
        } => abend_values(*code, *reason, *dump, *step),
        Op::EstaexCt {
            prog,
            term,
            cancel,
            xctl,
        }
        | Op::EstaexOv {
            prog,
            term,
            cancel,
            xctl,
        } => { estaex_values(program_name(deck, *prog), *term, *cancel, *xctl) }
        Op::EstaexZero | Op::FrrDelete | Op::FrrPurge => one(WORD),
        Op::FrrAdd { prog } | Op::FrrReplace { prog } => two(WORD, program_name(deck, *prog)),
        Op::MgrAdd { prog, space } | Op::MgrDelete { prog, space } => {
            three(WORD, program_name(deck, *prog), flag(*space))
        }
        _ => unreachable!("the caller hands on no other operation"),
    }
}

// The same, of an operation that names a unit, or ends them all.
fn values_of_unit_op(deck: &Deck, op: &Op) -> Values
    requires { IsTrue (names_unit op.now) }
    ensures { result.items ≡ values_of_op deck.now op.now }
{
    match op {
        Op::Attachx {
            unit,
            estai: None,
            ..
        } => one(unit_name(deck, *unit)),
        Op::Attachx {
            unit,
            estai: Some(prog),
            term,
        } => {
            three(
                unit_name(deck, *unit),
                program_name(deck, *prog),
                flag(*term),
            )
        }
        Op::Detach { unit, stae } => two(unit_name(deck, *unit), flag(*stae)),
        Op::Abterm {
            unit,
            code,
            reason,
            dump,
            retry,
        } => { abterm_values(unit_name(deck, *unit), *code, *reason, *dump, *retry) }
        Op::Memterm { code } => two(WORD, code_value(*code)),
        Op::Schedule { unit } | Op::WaitTask { unit } => one(unit_name(deck, *unit)),
        _ => unreachable!("the caller hands on no other operation"),
    }
}

fn abend_values(code: Code, reason: Option<u32>, dump: bool, step: bool) -> Values
    ensures { result.items ≡ some (Value.Code code) ∷ option_map Value.Reason reason
        ∷ some (Value.Flag dump)
        ∷ some (Value.Flag step) ∷ [] }
{
    let mut values = two(code_value(code), given_reason(reason));
    values.push(flag(dump));
    values.push(flag(step));
    values
}

// The values of both forms that name a routine.
fn estaex_values(program: Option<Value>, term: bool, cancel: bool, xctl: bool) -> Values
    ensures { result.items ≡ some Value.Word ∷ program ∷ some (Value.Flag term)
        ∷ some (Value.Flag cancel)
        ∷ some (Value.Flag xctl) ∷ [] }
{
    let mut values = three(WORD, program, flag(term));
    values.push(flag(cancel));
    values.push(flag(xctl));
    values
}

fn abterm_values(
    task: Option<Value>,
    code: Code,
    reason: Option<u32>,
    dump: bool,
    retry: bool,
) -> Values
    ensures { result.items ≡ some Value.Word ∷ task ∷ some (Value.Code code)
        ∷ option_map Value.Reason reason
        ∷ some (Value.Flag dump) ∷ some (Value.Flag retry) ∷ [] }
{
    let mut values = three(WORD, task, code_value(code));
    values.push(given_reason(reason));
    values.push(flag(dump));
    values.push(flag(retry));
    values
}

fn setrp_values(setrp: &Setrp) -> Values
    ensures { result.items ≡ option_map Value.Number setrp.now.rc
        ∷ option_map Value.Name setrp.now.retaddr
        ∷ option_map Value.Flag setrp.now.remrec ∷ option_map Value.Code setrp.now.compcod
        ∷ option_map Value.Reason setrp.now.reason ∷ option_map Value.Three setrp.now.dump
        ∷ option_map Value.Three setrp.now.logrec ∷ option_map Value.Flag setrp.now.fresdwa ∷ [] }
{
    let mut values = three(
        return_code(setrp.rc),
        given_label(setrp.retaddr),
        given_flag(setrp.remrec),
    );
    values.push(given_code(setrp.compcod));
    values.push(given_reason(setrp.reason));
    values.push(given_answer(setrp.dump));
    values.push(given_answer(setrp.logrec));
    values.push(given_flag(setrp.fresdwa));
    values
}
