//! Calls of sources and sinks: which are to fail, and what a call of the system is told as.

ghost use Rattle.std.specs.Prelude.{◌≡◌, ◌↔◌, ◌<◌, ◌≤◌, Contains, IsTrue, Ok, IfOk, OnErr};
ghost use Rattle.rtm_io.specs.Faults.{HasCause, next_count};

use crate::Failed;
use std::io;

/// Whether the call with this number is one of those that fail. Past the last `u32` none is.
pub(crate) fn is_listed(fail: &[u32], call: u64) -> bool
    ensures { IsTrue result ↔ Contains fail.now call }
{
    fail.iter().any(|number| u64::from(*number) == call)
}

/// How many bytes a call of the system moved. Each error is a fault, which is counted, also an
/// interruption; and so is a call that moved fewer bytes than `least`.
pub(crate) fn bytes_moved(
    answer: io::Result<usize>,
    least: usize,
    faults: &mut u64,
) -> Result<usize, Failed>
    ensures moved { IfOk result (λ n. answer ≡ Ok n) }
    ensures enough { IfOk result (λ n. least ≤ n) }
    ensures failed { OnErr result (IfOk answer (λ n. n < least)) }
    ensures err { OnErr result (faults.new ≡ next_count faults.old) }
    ensures cause { HasCause faults.old faults.new result }
{
    match answer {
        Ok(n) if n >= least => Ok(n),
        _ => {
            *faults = faults.saturating_add(1);
            Err(Failed)
        }
    }
}
