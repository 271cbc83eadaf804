//! Why a deck is refused.

/// What is wrong with a card (this profile). In one card the faults are looked for in the order that docs/CARDS.md
/// gives.
#[derive(Clone, Copy, Debug, PartialEq, Eq)]
pub enum Why {
    TooLong,
    BadByte,
    BadCard,
    UnknownOp,
    BadOperand,
    DuplicateName,
    UnknownName,
    UnknownLabel,
    WrongPlace,
    NoJobStep,
    NoEnd,
    OverLimit,
}
