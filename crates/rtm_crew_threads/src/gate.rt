//! Who is told of the workers and of their entries.

use rtm_model::Entry;

/// A gate is told of each worker that begins and of each entry that is made, by whoever begins or makes it, and never
/// while the region is locked. It may hold a caller up, and has to return (this profile).
pub trait Gate: Sync {
    /// The worker of the unit of that number begins: it makes no entry before this call returns.
    fn pass(&self, unit: u16);

    /// The entry of that number was made, from 0: its maker makes no other one before this call returns.
    fn made(&self, index: u32, entry: &Entry);
}

/// A gate that lets everybody pass at once.
#[derive(Clone, Copy, Debug, PartialEq, Eq)]
pub struct OpenGate;

impl Gate for OpenGate {
    fn pass(&self, _unit: u16) {}

    fn made(&self, _index: u32, _entry: &Entry) {}
}
