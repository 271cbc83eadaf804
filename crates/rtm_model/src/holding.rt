//! Holdings, and resource managers.

use rtm_deck_items::Res;

/// A resource that a unit holds since the entry `born`; its number is 0 to 999999.
#[derive(Clone, Copy, Debug, PartialEq, Eq)]
pub struct Holding {
    pub born: u32,
    pub class: Res,
    pub id: u32,
    pub owner: u16,
}

/// A resource manager that was added at the entry `born`: of a task, by its number, or of the address space.
#[derive(Clone, Copy, Debug, PartialEq, Eq)]
pub struct Manager1 {
    pub born: u32,
    pub prog: u16,
    pub task: Option<u16>,
}
