//! Request blocks, and places in programs.

/// A place in a program: the program's number in the deck, and the operation's, from 1.
///
/// The place behind a program's last card has the number of cards plus one, and acts as RETURN.
#[derive(Clone, Copy, Debug, PartialEq, Eq)]
pub struct Place {
    pub prog: u16,
    pub op: u16,
}

/// A request block: 0 for the one that the job step task has at the start, else the index of its entry of birth
/// plus one, and the place at which it stands.
#[derive(Clone, Copy, Debug, PartialEq, Eq)]
pub struct Block {
    pub born: u32,
    pub place: Place,
}
