//! The slots of a table.

/// How many slots a table has at most.
pub const MOST_SLOTS: usize = 8;

/// What the name in an operand names.
#[derive(Clone, Copy, Debug, PartialEq, Eq)]
pub enum NameOf {
    Program,
    Task,
    Srb,
    /// A label of the program in which the card stands.
    OwnLabel,
    /// A label of any program.
    AnyLabel,
}

/// What may stand as the value of an operand.
#[derive(Clone, Copy, Debug)]
pub enum Kind {
    /// That word and no other, padded with blanks. It has characters of 33 to 126 and no comma.
    Word([u8; 8]),
    /// One to ten decimal digits, with or without leading zeros: a number of `least` to `most`.
    Number { least: u32, most: u32 },
    /// One to ten decimal digits, with or without leading zeros: 0, 4 or 16.
    ReturnCode,
    /// A name of 1 to 8 characters, of that thing.
    Name(NameOf),
    /// A completion code.
    Code,
    /// A completion code that isn't S000, normal end.
    AbendCode,
    /// One to eight hexadecimal digits in capitals.
    Reason,
    /// YES or NO.
    YesNo,
    /// YES, NO or IGNORE.
    YesNoIgnore,
    /// ENQ, STOR, DSN or TIMR.
    Class,
    /// TASK or SPACE, and SPACE is the flag that is set.
    Scope,
}

/// What it means that an operand is left out.
#[derive(Clone, Copy, Debug)]
pub enum LeftOut {
    /// It can't be left out.
    Needed,
    /// There is no value.
    Nothing,
    /// The same as if that flag were given.
    Flag(bool),
    /// The same as if that number were given.
    Number(u32),
}

/// A row of a table: an operand that a card may have.
#[derive(Clone, Copy, Debug)]
pub struct Slot {
    /// The keyword, padded with blanks, in characters of 33 to 126 without comma and `=`; blanks alone for a positional
    /// operand.
    pub key: [u8; 8],
    pub kind: Kind,
    pub left_out: LeftOut,
}
