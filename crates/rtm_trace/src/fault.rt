//! Why no trace was read.

ghost use Rattle.std.specs.Prelude.{◌≡◌};
ghost use Rattle.rtm_trace.specs.declared.fault.TraceFault.TheVariants.{Memory};

use rtm_codes::NoMemory;
use std::alloc::{AllocError, AllocFailed};

/// Why no trace was read.
#[derive(Clone, Copy, Debug, PartialEq, Eq)]
pub enum TraceFault {
    /// Memory ran out.
    Memory,
    /// The number of the first bad line, counted from 1.
    BadLine { line: u32 },
}

impl From<AllocError> for TraceFault {
    ghost from_gives = { λ _ fault. fault ≡ Memory };

    fn from(_error: AllocError) -> TraceFault {
        TraceFault::Memory
    }
}

impl<T: Drop> From<AllocFailed<T>> for TraceFault {
    ghost from_gives = { λ _ fault. fault ≡ Memory };

    fn from(_error: AllocFailed<T>) -> TraceFault {
        TraceFault::Memory
    }
}

impl From<NoMemory> for TraceFault {
    ghost from_gives = { λ _ fault. fault ≡ Memory };

    fn from(_error: NoMemory) -> TraceFault {
        TraceFault::Memory
    }
}
