//! The forms of a trace's entries.

/// The forms of entries, by the words that they begin with.
#[derive(Clone, Copy)]
pub(crate) enum Form {
    Exec,
    Error,
    Land,
    Enter,
    Leave,
    Arrive,
    Begin,
    Release,
    Done,
    Purge,
    MemEnd,
}
