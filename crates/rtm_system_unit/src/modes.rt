//! Errors of mode: cards that stand where they may not (this profile).

ghost use Rattle.std.specs.Prelude.{◌≡◌};
ghost use Rattle.rtm_model.specs.Cards.{is_for_routine, is_for_sdwa, is_for_task, is_outside_manager, mode_error, mode_of};
ghost use Rattle.rtm_system_unit.specs.Modes.{mode_at};

use crate::unit_core::Core;
use rtm_codes::Code;
use rtm_deck_items::Op;
use rtm_model::Surroundings;

const WRONG_MODE: Code = Code::Sys(0x0F8);

const OUT_OF_ROUTINE: Code = Code::Sys(0xEE6);

const WITHOUT_SDWA: Code = Code::Sys(0xEE7);

// Where a card may stand.
#[derive(Clone, Copy)]
enum Mode {
    // In any unit.
    Anywhere,
    // In a task in which no FRR lives.
    ForTask,
    // In such a task, and in no resource manager.
    ForTaskOutsideManager,
    // In any unit in which no resource manager runs.
    OutsideManager,
    // In a recovery routine.
    ForRoutine,
    // In a recovery routine that was given an SDWA.
    ForSdwa,
}

fn mode_of(op: &Op) -> Mode
    ensures { mode_at result ≡ mode_of op.now }
{
    match op {
        Op::Nop
        | Op::Get { .. }
        | Op::Free { .. }
        | Op::Return
        | Op::Abend { .. }
        | Op::FrrAdd { .. }
        | Op::FrrDelete
        | Op::FrrReplace { .. }
        | Op::FrrPurge
        | Op::Abterm { .. }
        | Op::Post { .. }
        | Op::Branch { .. } => Mode::Anywhere,
        Op::Link { .. }
        | Op::Xctl { .. }
        | Op::EstaexCt { .. }
        | Op::EstaexOv { .. }
        | Op::EstaexZero => Mode::ForTask,
        Op::Attachx { .. }
        | Op::Detach { .. }
        | Op::MgrAdd { .. }
        | Op::MgrDelete { .. }
        | Op::Wait { .. }
        | Op::WaitTask { .. } => Mode::ForTaskOutsideManager,
        Op::Memterm { .. } | Op::Schedule { .. } => Mode::OutsideManager,
        Op::Ret15 { .. } | Op::IfCode { .. } => Mode::ForRoutine,
        Op::SetRp(_) | Op::IfClup { .. } | Op::IfPerc { .. } => Mode::ForSdwa,
    }
}

// Whether it is for a task in which no FRR lives.
fn is_for_task(mode: Mode) -> bool
    ensures { result ≡ is_for_task (mode_at mode) }
{
    matches!(mode, Mode::ForTask | Mode::ForTaskOutsideManager)
}

// Whether it is for a unit in which no resource manager runs.
fn is_outside_manager(mode: Mode) -> bool
    ensures { result ≡ is_outside_manager (mode_at mode) }
{
    matches!(mode, Mode::ForTaskOutsideManager | Mode::OutsideManager)
}

// Whether it is for a recovery routine.
fn is_for_routine(mode: Mode) -> bool
    ensures { result ≡ is_for_routine (mode_at mode) }
{
    matches!(mode, Mode::ForRoutine | Mode::ForSdwa)
}

// Whether it is for a routine that has an SDWA.
fn is_for_sdwa(mode: Mode) -> bool
    ensures { result ≡ is_for_sdwa (mode_at mode) }
{
    matches!(mode, Mode::ForSdwa)
}

impl Core {
    /// The code of the card's error of mode, if it has one.
    #[inline(always)]
    pub(crate) fn mode_error(&self, surroundings: &Surroundings, op: &Op) -> Option<Code>
        ensures { result ≡ mode_error self.now surroundings.now op.now }
    {
        let mode = mode_of(op);
        if is_for_task(mode) && (surroundings.srb || self.frrs.any()) {
            Some(WRONG_MODE)
        } else if is_outside_manager(mode) && self.levels.in_manager() {
            Some(WRONG_MODE)
        } else if is_for_routine(mode) && !self.levels.recovers() {
            Some(OUT_OF_ROUTINE)
        } else if is_for_sdwa(mode) && self.levels.bare() {
            Some(WITHOUT_SDWA)
        } else {
            None
        }
    }
}
