//! What a list answers to a call that it refuses.

/// No FRR of the bracket is there.
#[derive(Clone, Copy, Debug, PartialEq, Eq)]
pub struct Empty;

/// The bracket has no ESTAE routine, or another request block made its newest one.
#[derive(Clone, Copy, Debug, PartialEq, Eq)]
pub struct NotOwned;
