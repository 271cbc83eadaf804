//! Recovery routines and managers' routines, as they are registered.

/// What kind of routine was entered (Authorized Assembler Services Guide, "Providing recovery").
#[derive(Clone, Copy, Debug, PartialEq, Eq)]
pub enum Kind {
    Frr,
    Estae,
    Estai,
    Mgr,
}

/// A recovery routine that is registered: born at the entry of that index, by the request block `owner`, in the
/// bracket of that depth (0 for the outermost, at most 15), with its program and its options. Of an ESTAI routine and
/// of a manager owner and depth are 0 and say nothing.
#[derive(Clone, Copy, Debug, PartialEq, Eq)]
pub struct Reg {
    pub kind: Kind,
    pub born: u32,
    pub owner: u32,
    pub depth: u8,
    pub prog: u16,
    pub term: bool,
    pub cancel: bool,
    pub xctl: bool,
}

/// A list of control blocks has all that its limit allows.
#[derive(Clone, Copy, Debug, PartialEq, Eq)]
pub struct Full;
