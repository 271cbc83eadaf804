//! A region is a system whose managers are told of its releases. It is run here on one thread, in turns; others may
//! run it otherwise.
#![tactic(auto)]

mod ready;
mod region;
mod run;
mod send;
mod telling;

pub use ready::{NoRun, make_ready};
pub use region::Region;
pub use run::{run_with, seq_run};
pub use send::regions_are_send;
