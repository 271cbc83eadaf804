//! The next act of an ending.

ghost use Rattle.std.specs.Prelude.{◌≡◌};
ghost use Rattle.rtm_ending.specs.Acts.{next_act};

use rtm_model::{Holding, Manager1};

/// What a unit that ends, or the address space, does next (this profile).
#[derive(Clone, Copy, Debug, PartialEq, Eq)]
pub enum Act {
    /// It waits until no subtask lives.
    Wait,
    /// A resource manager gets control.
    Run(Manager1),
    /// A resource is released.
    Give(Holding),
    /// It has ended.
    Finish,
}

/// The next act of ending: of a unit whose subtasks haven't all ended, or not, with the manager and the holding that
/// are next, where there are some. The address space has no subtasks.
#[inline(always)]
pub fn next_act(subtasks_left: bool, mgr: Option<Manager1>, hold: Option<Holding>) -> Act
    ensures { result ≡ next_act subtasks_left mgr hold }
{
    if subtasks_left {
        return Act::Wait;
    }
    match (mgr, hold) {
        (Some(mgr), _) => Act::Run(mgr),
        (None, Some(hold)) => Act::Give(hold),
        (None, None) => Act::Finish,
    }
}
