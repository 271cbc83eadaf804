//! What a list answers to a call that it refuses.

/// The unit holds no such resource.
#[derive(Clone, Copy, Debug, PartialEq, Eq)]
pub struct NotHeld;

/// No such resource manager is there.
#[derive(Clone, Copy, Debug, PartialEq, Eq)]
pub struct NotFound;
