//! What is answered of a unit that was born before.

/// The unit was born before: it lives, or has ended.
#[derive(Clone, Copy, Debug, PartialEq, Eq)]
pub struct NotDormant;
