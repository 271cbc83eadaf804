//! What a call that failed answers.

/// A call of a source or a sink failed, as the count of its faults shows.
#[derive(Clone, Copy, Debug, PartialEq, Eq)]
pub struct Failed;
