//! What an open error leads to.

use rtm_model::Reg;
use rtm_sdwa::Sdwa;

/// What an open error leads to (Authorized Assembler Services Guide, "Providing recovery").
#[derive(Clone, Copy, Debug)]
pub enum Choice {
    /// The routine gets control.
    Enter(Reg),
    /// No routine is eligible: this one, in whose bracket the error is open, has failed.
    FailRoutine(Reg),
    /// No routine is eligible in the outermost bracket: the unit begins to end, by this record.
    Begin(Sdwa),
}
