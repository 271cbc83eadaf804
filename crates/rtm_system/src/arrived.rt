//! What an arrival answers.

use rtm_model::Entry;

/// What has become of a command that was to arrive.
#[derive(Clone, Copy, Debug, PartialEq, Eq)]
pub enum Arrived {
    /// Its entry, which stands at the end of the trace.
    Made(Entry),
    /// It may not arrive yet, or the history has as many entries as it may have.
    NotYet,
    /// Its target has begun to end, has ended or was purged, or memory end has begun: it never arrives any more.
    Gone,
}
