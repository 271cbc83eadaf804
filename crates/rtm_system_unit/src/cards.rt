//! What a card does: its row of the table of cards (this profile).

ghost use Rattle.std.specs.Prelude.{◌≡◌, if◌then◌else◌};
ghost use Rattle.rtm_codes.specs.Code.{same_code};
ghost use Rattle.rtm_model.specs.Cards.{fails, not_a_subtask, unless, rc_if, waits_for, fate_rc, frr_row, estae_row, newest_owned_here, frr_here, branch_row, row, outcome, is_deepest};
ghost use Rattle.rtm_model.specs.declared.outcome.Outcome.TheVariants.{Executed, Returns};
ghost use Rattle.rtm_model.specs.Blocks.{has_one_block};

use crate::unit_core::Core;
use rtm_codes::Code;
use rtm_deck_items::Op;
use rtm_model::{DEEPEST, Fate, Outcome, Reg, Surroundings};
use rtm_sdwa::Sdwa;

const TOO_MANY_FRRS: Code = Code::Sys(0x07D);

const NOT_A_SUBTASK: Code = Code::Sys(0x23E);

const TOO_MANY_BLOCKS: Code = Code::Sys(0xEE1);

const TOO_MANY_ESTAES: Code = Code::Sys(0xEE2);

const TOO_DEEP: Code = Code::Sys(0xEE3);

const TOO_MANY_HOLDINGS: Code = Code::Sys(0xEE4);

const TOO_MANY_MANAGERS: Code = Code::Sys(0xEE5);

fn execution_with(rc: u8) -> Outcome
    ensures { result ≡ Executed rc }
{
    Outcome::Executed { rc }
}

fn fails(code: Code) -> Outcome
    ensures { result ≡ fails code }
{
    Outcome::Abends {
        code,
        reason: None,
        dump: false,
        step: false,
    }
}

fn unless(failed: bool, code: Code) -> Outcome
    ensures { result ≡ unless failed code }
{
    if failed {
        fails(code)
    } else {
        execution_with(0)
    }
}

// Executed with 0 where what the card speaks of is there, else with that return code.
fn rc_if(there: bool, otherwise: u8) -> Outcome
    ensures { result ≡ Executed (rc_if there otherwise) }
{
    if there {
        execution_with(0)
    } else {
        execution_with(otherwise)
    }
}

fn waits_for(there: bool) -> Outcome
    ensures { result ≡ waits_for there }
{
    if there {
        execution_with(0)
    } else {
        Outcome::Waits
    }
}

fn post_outcome(found: bool) -> Outcome
    ensures { result ≡ Executed (if found then 4 else 0) }
{
    if found {
        execution_with(4)
    } else {
        execution_with(0)
    }
}

fn fate_rc(fate: Fate) -> Outcome
    ensures { result ≡ Executed (fate_rc fate) }
{
    match fate {
        Fate::Queued => execution_with(0),
        Fate::Merged => execution_with(4),
        Fate::Late => execution_with(8),
    }
}

fn detach_outcome(surroundings: &Surroundings) -> Outcome
    ensures { result
        ≡ (if surroundings.now.own then Executed (fate_rc surroundings.now.fate)
        else fails not_a_subtask) }
{
    if surroundings.own {
        fate_rc(surroundings.fate)
    } else {
        fails(NOT_A_SUBTASK)
    }
}

fn is_same_code(one: Code, other: Code) -> bool
    ensures { result ≡ same_code one other }
{
    match (one, other) {
        (Code::Sys(one), Code::Sys(other)) => one == other,
        (Code::User(one), Code::User(other)) => one == other,
        _ => false,
    }
}

fn branch(taken: bool) -> Outcome
    ensures { result ≡ Executed (if taken then 4 else 0) }
{
    if taken {
        execution_with(4)
    } else {
        execution_with(0)
    }
}

fn branch_by_code(code: Code, error: Option<Sdwa>) -> Outcome
    ensures { result ≡ branch_row (λ r. same_code r.code code) error }
{
    match error {
        None => branch(false),
        Some(error) => branch(is_same_code(error.code, code)),
    }
}

fn branch_by_clup(error: Option<Sdwa>) -> Outcome
    ensures { result ≡ branch_row (λ r. r.flags.clup) error }
{
    match error {
        None => branch(false),
        Some(error) => branch(error.flags.ten().clup),
    }
}

fn branch_by_perc(error: Option<Sdwa>) -> Outcome
    ensures { result ≡ branch_row (λ r. r.flags.perc) error }
{
    match error {
        None => branch(false),
        Some(error) => branch(error.flags.ten().perc),
    }
}

impl Core {
    fn is_deepest(&self) -> bool
        ensures { result ≡ is_deepest self.now.levels }
    {
        self.levels.depth() as usize >= DEEPEST
    }

    fn frr_row(&self) -> Outcome
        ensures { result ≡ frr_row self.now.levels self.now.frrs }
    {
        if self.is_deepest() {
            fails(TOO_DEEP)
        } else {
            unless(self.frrs.is_full(), TOO_MANY_FRRS)
        }
    }

    fn estae_row(&self) -> Outcome
        ensures { result ≡ estae_row self.now.levels self.now.estaes }
    {
        if self.is_deepest() {
            fails(TOO_DEEP)
        } else {
            unless(self.estaes.is_full(), TOO_MANY_ESTAES)
        }
    }

    fn newest_owned_here(&self) -> Option<Reg>
        ensures { result ≡ newest_owned_here self.now }
    {
        self.estaes
            .newest_owned(self.levels.depth(), self.blocks.newest())
    }

    fn frr_here(&self) -> Option<Reg>
        ensures { result ≡ frr_here self.now }
    {
        self.frrs.next(self.levels.depth())
    }

    fn return_row(&self) -> Outcome
        ensures { result ≡ (if has_one_block self.now.blocks then Returns else Executed 0) }
    {
        if self.blocks.is_last() {
            Outcome::Returns
        } else {
            execution_with(0)
        }
    }

    // What the card does where no error of mode applies.
    #[inline(always)]
    fn row(&self, surroundings: &Surroundings, op: &Op) -> Outcome
        ensures { result ≡ row self.now surroundings.now op.now }
    {
        match *op {
            Op::Nop | Op::Xctl { .. } | Op::FrrPurge | Op::Memterm { .. } => execution_with(0),
            Op::SetRp(_) | Op::Ret15 { .. } | Op::Branch { .. } => execution_with(0),
            Op::Get { .. } => unless(surroundings.crowded, TOO_MANY_HOLDINGS),
            Op::MgrAdd { .. } => unless(surroundings.crowded, TOO_MANY_MANAGERS),
            Op::Free { .. } | Op::MgrDelete { .. } => rc_if(surroundings.found, 4),
            Op::Link { .. } => unless(self.blocks.is_bracket_full(), TOO_MANY_BLOCKS),
            Op::Return => self.return_row(),
            Op::Abend {
                code,
                reason,
                dump,
                step,
            } => Outcome::Abends {
                code,
                reason,
                dump,
                step,
            },
            Op::EstaexCt { .. } => self.estae_row(),
            Op::EstaexOv { .. } | Op::EstaexZero => rc_if(self.newest_owned_here().is_some(), 8),
            Op::FrrAdd { .. } => self.frr_row(),
            Op::FrrDelete | Op::FrrReplace { .. } => rc_if(self.frr_here().is_some(), 4),
            Op::Attachx { .. } | Op::Schedule { .. } => rc_if(surroundings.unborn, 8),
            Op::Detach { .. } => detach_outcome(surroundings),
            Op::Abterm { .. } => fate_rc(surroundings.fate),
            Op::Wait { .. } | Op::WaitTask { .. } => waits_for(surroundings.found),
            Op::Post { .. } => post_outcome(surroundings.found),
            Op::IfCode { code, .. } => branch_by_code(code, self.levels.sdwa()),
            Op::IfClup { .. } => branch_by_clup(self.levels.sdwa()),
            Op::IfPerc { .. } => branch_by_perc(self.levels.sdwa()),
        }
    }

    /// What the card does: an error of mode comes first.
    #[inline(always)]
    pub(crate) fn outcome(&self, surroundings: &Surroundings, op: &Op) -> Outcome
        ensures { result ≡ outcome self.now surroundings.now op.now }
    {
        match self.mode_error(surroundings, op) {
            Some(code) => fails(code),
            None => self.row(surroundings, op),
        }
    }
}
