//! What a unit's next entry may ask of others.

use crate::abort::Abort;
use crate::entry::Fate;
use crate::holding::{Holding, Manager1};

/// What a unit's next entry needs of others, as plain values (this profile).
#[derive(Clone, Copy, Debug, PartialEq, Eq)]
pub struct Surroundings {
    /// The unit is an SRB.
    pub srb: bool,
    /// The first abort that is pending for it.
    pub abort: Option<Abort>,
    /// A subtask of it lives.
    pub subtask: bool,
    /// The manager that it would enter next; at the master, one of the address space.
    pub manager: Option<Manager1>,
    /// The holding that it would release next; at the master, anybody's.
    pub holding: Option<Holding>,
    /// What its card would add has no room.
    pub crowded: bool,
    /// What its card takes away, waits for or posts is there.
    pub found: bool,
    /// The unit that its card would bring to life is dormant.
    pub unborn: bool,
    /// It has attached the task that its card names.
    pub own: bool,
    /// What would become of the abort that its card posts.
    pub fate: Fate,
    /// What would become of an abort that its end posts to its related task, if it has one.
    pub to_task: Option<Fate>,
    /// What would become of an abort that its end posts to the job step task; None at the job step task.
    pub to_step: Option<Fate>,
}
