//! Which workers are started.

/// Says of each unit whether its worker is to be started. Where it isn't, the unit's entries are made as where the
/// system has refused to start a thread: by the caller (this profile).
pub trait Starts {
    fn may_start(&self, unit: u16) -> bool;
}

/// The worker of each unit is to be started.
#[derive(Clone, Copy, Debug, PartialEq, Eq)]
pub struct EachStarts;

impl Starts for EachStarts {
    fn may_start(&self, _unit: u16) -> bool {
        true
    }
}
