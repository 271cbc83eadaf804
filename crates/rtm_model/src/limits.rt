//! The limits of the machine (this profile).

/// How many ESTAE routines of a unit live at one time, at most.
pub const MOST_ESTAES: usize = 64;

/// How many ESTAI routines a task has, at most: its own, and one for each of its ancestors but the job step task, of
/// as many units as a deck has at most.
pub const MOST_ESTAIS: usize = 63;

/// How many FRRs of a unit live at one time, at most.
pub const MOST_FRRS: usize = 16;

/// How many request blocks a bracket has, at most.
pub const MOST_BLOCKS: usize = 32;

/// How many brackets a unit has, at most.
pub const MOST_BRACKETS: usize = 16;

/// The depth of the last of so many brackets, in which no recovery routine is made.
pub const DEEPEST: usize = 15;

/// How many holdings a unit has, at most.
pub const MOST_HOLDINGS: usize = 256;

/// How many resource managers an address space has, at most.
pub const MOST_MANAGERS: usize = 64;
