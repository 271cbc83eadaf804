//! What is seen at a glance of a unit's next entry.

use rtm_model::Place;

/// What is seen at a glance of a unit's next entry, while others are asked as little as can be (this profile).
#[derive(Clone, Copy, Debug)]
pub enum Glance {
    /// It has none: it doesn't live, it waits at its card, or memory end decides.
    Idle,
    /// It executes the card at that place, with the return code 0.
    Executes(Place),
    /// `World::next` has to be asked.
    Unseen,
}
