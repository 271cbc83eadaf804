//! The entries of a recovery trace, the plain data that control blocks hold, and the definitions of the machine.
#![tactic(auto)]

mod abort;
mod block;
mod entry;
mod error_record;
mod holding;
mod limits;
mod mark;
mod outcome;
mod reg;
mod send;
mod surroundings;

pub use abort::Abort;
pub use block::{Block, Place};
pub use entry::{Class, End, Entry, Fate, Verdict, What};
pub use error_record::{ErrorRecord, RecordFlags};
pub use holding::{Holding, Manager1};
pub use limits::{
    DEEPEST, MOST_BLOCKS, MOST_BRACKETS, MOST_ESTAES, MOST_ESTAIS, MOST_FRRS, MOST_HOLDINGS,
    MOST_MANAGERS,
};
pub use mark::Mark;
pub use outcome::Outcome;
pub use reg::{Full, Kind, Reg};
pub use rtm_deck_items::Res;
pub use send::types_are_send;
pub use surroundings::Surroundings;
