//! The forms of cards.

/// What stands in the name field of a card: a name always, a name or nothing, or nothing.
#[derive(Clone, Copy, Debug, PartialEq, Eq)]
pub enum NameField {
    Needed,
    Allowed,
    Refused,
}

/// The form of a card: its operation with the operands that go together. An operation may have several forms.
#[derive(Clone, Copy, Debug, PartialEq, Eq)]
pub enum CardForm {
    Region,
    Prog,
    Pend,
    Task,
    Srb,
    Oper,
    Cancel,
    End,
    Nop,
    Get,
    Free,
    Link,
    Xctl,
    Return,
    Abend,
    EstaexCt,
    EstaexOv,
    EstaexZero,
    FrrAdd,
    FrrDelete,
    FrrReplace,
    FrrPurge,
    Attachx,
    AttachxEstai,
    Detach,
    Abterm,
    Memterm,
    MgrAdd,
    MgrDelete,
    Schedule,
    Wait,
    WaitTask,
    Post,
    SetRp,
    Ret15,
    Branch,
    IfCode,
    IfClup,
    IfPerc,
}
