//! What a call of the program gives back.

use rtm_desk::Manager;
use rtm_top_answers::Status;

/// What a call of the program gives back: how it went, and the managers that were handed in, in the same order.
#[derive(Drop)]
pub struct Outcome {
    pub status: Status,
    pub managers: Vec<Box<dyn Manager + Send>>,
}
