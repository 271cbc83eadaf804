//! What a step answers.

use rtm_model::Entry;

/// What a step has made.
#[derive(Clone, Copy, Debug, PartialEq, Eq)]
pub enum Stepped {
    /// The unit's next entry, which stands at the end of the trace.
    Made(Entry),
    /// The unit has no next entry now.
    NotReady,
    /// The history has as many entries as it may have.
    AtLimit,
    /// The address space has ended, or no unit has a next entry.
    IsOver,
}
