//! The values that operands spell.

use crate::name::Name;
use rtm_codes::Code;

/// The class of a holding, in the order in which classes are released (this profile).
#[derive(Clone, Copy, Debug, PartialEq, Eq)]
pub enum Res {
    Enq,
    Stor,
    Dsn,
    Timr,
}

/// What SETRP's DUMP= and RECORD= say: YES, NO or IGNORE.
#[derive(Clone, Copy, Debug, PartialEq, Eq)]
pub enum Three {
    Yes,
    No,
    Ignore,
}

/// The value of an operand. A program's or a unit's value is its name.
#[derive(Clone, Copy, Debug, PartialEq, Eq)]
pub enum Value {
    /// A fixed word, which says nothing but that it is there.
    Word,
    /// A number in the range of its slot; a return code is 0, 4 or 16.
    Number(u32),
    Name(Name),
    /// A completion code in range.
    Code(Code),
    /// A reason code, any number of 32 bits.
    Reason(u32),
    /// YES or NO; of a scope, whether it is the address space.
    Flag(bool),
    Three(Three),
    Class(Res),
}
