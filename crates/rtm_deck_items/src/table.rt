//! The tables of the forms of cards.

ghost use Rattle.std.specs.Prelude.{◌≡◌};
ghost use Rattle.rtm_deck_items.specs.Forms.{all_forms, operation_of, slots_of, needs_some, name_field, is_inside};

use crate::form::{CardForm, NameField};
use rtm_cards::{DEFAULT_ENTRIES, MOST_ENTRIES};
use rtm_deck_operands::{Kind, LeftOut, NameOf, Slot};

static NONE: [Slot; 0] = [];

static REGION: [Slot; 2] = [
    Slot {
        key: *b"LIMIT   ",
        kind: Kind::Number {
            least: 1,
            most: MOST_ENTRIES,
        },
        left_out: LeftOut::Number(DEFAULT_ENTRIES),
    },
    Slot {
        key: *b"SDWA    ",
        kind: Kind::YesNo,
        left_out: LeftOut::Flag(true),
    },
];

static TASK: [Slot; 1] = [Slot {
    key: *b"PGM     ",
    kind: Kind::Name(NameOf::Program),
    left_out: LeftOut::Needed,
}];

static SRB: [Slot; 2] = [
    Slot {
        key: *b"PGM     ",
        kind: Kind::Name(NameOf::Program),
        left_out: LeftOut::Needed,
    },
    Slot {
        key: *b"TASK    ",
        kind: Kind::Name(NameOf::Task),
        left_out: LeftOut::Nothing,
    },
];

static CANCEL: [Slot; 3] = [
    Slot {
        key: *b"        ",
        kind: Kind::Name(NameOf::Task),
        left_out: LeftOut::Needed,
    },
    Slot {
        key: *b"AT      ",
        kind: Kind::Number {
            least: 0,
            most: MOST_ENTRIES,
        },
        left_out: LeftOut::Number(0),
    },
    Slot {
        key: *b"DUMP    ",
        kind: Kind::YesNo,
        left_out: LeftOut::Flag(false),
    },
];

static GET: [Slot; 2] = [
    Slot {
        key: *b"        ",
        kind: Kind::Class,
        left_out: LeftOut::Needed,
    },
    Slot {
        key: *b"        ",
        kind: Kind::Number {
            least: 0,
            most: 999_999,
        },
        left_out: LeftOut::Needed,
    },
];

static A_PROGRAM: [Slot; 1] = [Slot {
    key: *b"        ",
    kind: Kind::Name(NameOf::Program),
    left_out: LeftOut::Needed,
}];

static A_TASK: [Slot; 1] = [Slot {
    key: *b"        ",
    kind: Kind::Name(NameOf::Task),
    left_out: LeftOut::Needed,
}];

static AN_SRB: [Slot; 1] = [Slot {
    key: *b"        ",
    kind: Kind::Name(NameOf::Srb),
    left_out: LeftOut::Needed,
}];

static A_LABEL: [Slot; 1] = [Slot {
    key: *b"        ",
    kind: Kind::Name(NameOf::OwnLabel),
    left_out: LeftOut::Needed,
}];

static ABEND: [Slot; 4] = [
    Slot {
        key: *b"        ",
        kind: Kind::AbendCode,
        left_out: LeftOut::Needed,
    },
    Slot {
        key: *b"REASON  ",
        kind: Kind::Reason,
        left_out: LeftOut::Nothing,
    },
    Slot {
        key: *b"DUMP    ",
        kind: Kind::YesNo,
        left_out: LeftOut::Flag(false),
    },
    Slot {
        key: *b"STEP    ",
        kind: Kind::YesNo,
        left_out: LeftOut::Flag(false),
    },
];

static ESTAEX_CT: [Slot; 5] = [
    Slot {
        key: *b"        ",
        kind: Kind::Word(*b"CT      "),
        left_out: LeftOut::Needed,
    },
    Slot {
        key: *b"PGM     ",
        kind: Kind::Name(NameOf::Program),
        left_out: LeftOut::Needed,
    },
    Slot {
        key: *b"TERM    ",
        kind: Kind::YesNo,
        left_out: LeftOut::Flag(false),
    },
    Slot {
        key: *b"CANCEL  ",
        kind: Kind::YesNo,
        left_out: LeftOut::Flag(true),
    },
    Slot {
        key: *b"XCTL    ",
        kind: Kind::YesNo,
        left_out: LeftOut::Flag(false),
    },
];

static ESTAEX_OV: [Slot; 5] = [
    Slot {
        key: *b"        ",
        kind: Kind::Word(*b"OV      "),
        left_out: LeftOut::Needed,
    },
    Slot {
        key: *b"PGM     ",
        kind: Kind::Name(NameOf::Program),
        left_out: LeftOut::Needed,
    },
    Slot {
        key: *b"TERM    ",
        kind: Kind::YesNo,
        left_out: LeftOut::Flag(false),
    },
    Slot {
        key: *b"CANCEL  ",
        kind: Kind::YesNo,
        left_out: LeftOut::Flag(true),
    },
    Slot {
        key: *b"XCTL    ",
        kind: Kind::YesNo,
        left_out: LeftOut::Flag(false),
    },
];

static ESTAEX_ZERO: [Slot; 1] = [Slot {
    key: *b"        ",
    kind: Kind::Word(*b"0       "),
    left_out: LeftOut::Needed,
}];

static FRR_ADD: [Slot; 2] = [
    Slot {
        key: *b"        ",
        kind: Kind::Word(*b"A       "),
        left_out: LeftOut::Needed,
    },
    Slot {
        key: *b"PGM     ",
        kind: Kind::Name(NameOf::Program),
        left_out: LeftOut::Needed,
    },
];

static FRR_DELETE: [Slot; 1] = [Slot {
    key: *b"        ",
    kind: Kind::Word(*b"D       "),
    left_out: LeftOut::Needed,
}];

static FRR_REPLACE: [Slot; 2] = [
    Slot {
        key: *b"        ",
        kind: Kind::Word(*b"R       "),
        left_out: LeftOut::Needed,
    },
    Slot {
        key: *b"PGM     ",
        kind: Kind::Name(NameOf::Program),
        left_out: LeftOut::Needed,
    },
];

static FRR_PURGE: [Slot; 1] = [Slot {
    key: *b"        ",
    kind: Kind::Word(*b"P       "),
    left_out: LeftOut::Needed,
}];

static ATTACHX_ESTAI: [Slot; 3] = [
    Slot {
        key: *b"        ",
        kind: Kind::Name(NameOf::Task),
        left_out: LeftOut::Needed,
    },
    Slot {
        key: *b"ESTAI   ",
        kind: Kind::Name(NameOf::Program),
        left_out: LeftOut::Needed,
    },
    Slot {
        key: *b"TERM    ",
        kind: Kind::YesNo,
        left_out: LeftOut::Flag(false),
    },
];

static DETACH: [Slot; 2] = [
    Slot {
        key: *b"        ",
        kind: Kind::Name(NameOf::Task),
        left_out: LeftOut::Needed,
    },
    Slot {
        key: *b"STAE    ",
        kind: Kind::YesNo,
        left_out: LeftOut::Flag(false),
    },
];

static ABTERM: [Slot; 6] = [
    Slot {
        key: *b"        ",
        kind: Kind::Word(*b"ABTERM  "),
        left_out: LeftOut::Needed,
    },
    Slot {
        key: *b"TASK    ",
        kind: Kind::Name(NameOf::Task),
        left_out: LeftOut::Needed,
    },
    Slot {
        key: *b"COMPCOD ",
        kind: Kind::AbendCode,
        left_out: LeftOut::Needed,
    },
    Slot {
        key: *b"REASON  ",
        kind: Kind::Reason,
        left_out: LeftOut::Nothing,
    },
    Slot {
        key: *b"DUMP    ",
        kind: Kind::YesNo,
        left_out: LeftOut::Flag(false),
    },
    Slot {
        key: *b"RETRY   ",
        kind: Kind::YesNo,
        left_out: LeftOut::Flag(true),
    },
];

static MEMTERM: [Slot; 2] = [
    Slot {
        key: *b"        ",
        kind: Kind::Word(*b"MEMTERM "),
        left_out: LeftOut::Needed,
    },
    Slot {
        key: *b"COMPCOD ",
        kind: Kind::AbendCode,
        left_out: LeftOut::Needed,
    },
];

static MGR_ADD: [Slot; 3] = [
    Slot {
        key: *b"        ",
        kind: Kind::Word(*b"ADD     "),
        left_out: LeftOut::Needed,
    },
    Slot {
        key: *b"PGM     ",
        kind: Kind::Name(NameOf::Program),
        left_out: LeftOut::Needed,
    },
    Slot {
        key: *b"TYPE    ",
        kind: Kind::Scope,
        left_out: LeftOut::Needed,
    },
];

static MGR_DELETE: [Slot; 3] = [
    Slot {
        key: *b"        ",
        kind: Kind::Word(*b"DELETE  "),
        left_out: LeftOut::Needed,
    },
    Slot {
        key: *b"PGM     ",
        kind: Kind::Name(NameOf::Program),
        left_out: LeftOut::Needed,
    },
    Slot {
        key: *b"TYPE    ",
        kind: Kind::Scope,
        left_out: LeftOut::Needed,
    },
];

static WAIT: [Slot; 1] = [Slot {
    key: *b"        ",
    kind: Kind::Number {
        least: 0,
        most: 255,
    },
    left_out: LeftOut::Needed,
}];

static SET_RP: [Slot; 8] = [
    Slot {
        key: *b"RC      ",
        kind: Kind::ReturnCode,
        left_out: LeftOut::Nothing,
    },
    Slot {
        key: *b"RETADDR ",
        kind: Kind::Name(NameOf::AnyLabel),
        left_out: LeftOut::Nothing,
    },
    Slot {
        key: *b"REMREC  ",
        kind: Kind::YesNo,
        left_out: LeftOut::Nothing,
    },
    Slot {
        key: *b"COMPCOD ",
        kind: Kind::AbendCode,
        left_out: LeftOut::Nothing,
    },
    Slot {
        key: *b"REASON  ",
        kind: Kind::Reason,
        left_out: LeftOut::Nothing,
    },
    Slot {
        key: *b"DUMP    ",
        kind: Kind::YesNoIgnore,
        left_out: LeftOut::Nothing,
    },
    Slot {
        key: *b"RECORD  ",
        kind: Kind::YesNoIgnore,
        left_out: LeftOut::Nothing,
    },
    Slot {
        key: *b"FRESDWA ",
        kind: Kind::YesNo,
        left_out: LeftOut::Nothing,
    },
];

static RET15: [Slot; 2] = [
    Slot {
        key: *b"        ",
        kind: Kind::ReturnCode,
        left_out: LeftOut::Needed,
    },
    Slot {
        key: *b"RETADDR ",
        kind: Kind::Name(NameOf::AnyLabel),
        left_out: LeftOut::Nothing,
    },
];

static IF_CODE: [Slot; 2] = [
    Slot {
        key: *b"        ",
        kind: Kind::Code,
        left_out: LeftOut::Needed,
    },
    Slot {
        key: *b"        ",
        kind: Kind::Name(NameOf::OwnLabel),
        left_out: LeftOut::Needed,
    },
];

static ALL_FORMS: [CardForm; 39] = [
    CardForm::Region,
    CardForm::Prog,
    CardForm::Pend,
    CardForm::Task,
    CardForm::Srb,
    CardForm::Oper,
    CardForm::Cancel,
    CardForm::End,
    CardForm::Nop,
    CardForm::Get,
    CardForm::Free,
    CardForm::Link,
    CardForm::Xctl,
    CardForm::Return,
    CardForm::Abend,
    CardForm::EstaexCt,
    CardForm::EstaexOv,
    CardForm::EstaexZero,
    CardForm::FrrAdd,
    CardForm::FrrDelete,
    CardForm::FrrReplace,
    CardForm::FrrPurge,
    CardForm::Attachx,
    CardForm::AttachxEstai,
    CardForm::Detach,
    CardForm::Abterm,
    CardForm::Memterm,
    CardForm::MgrAdd,
    CardForm::MgrDelete,
    CardForm::Schedule,
    CardForm::Wait,
    CardForm::WaitTask,
    CardForm::Post,
    CardForm::SetRp,
    CardForm::Ret15,
    CardForm::Branch,
    CardForm::IfCode,
    CardForm::IfClup,
    CardForm::IfPerc,
];

/// All forms of cards, in the order in which a card's form is sought.
pub fn all_forms() -> &'static [CardForm]
    ensures { result.now ≡ all_forms }
{
    &ALL_FORMS
}

impl CardForm {
    /// What stands in the operation field.
    pub fn operation(self) -> &'static [u8]
        ensures { result.now ≡ operation_of self }
    {
        match self {
            CardForm::Region => b"REGION",
            CardForm::Prog => b"PROG",
            CardForm::Pend => b"PEND",
            CardForm::Task => b"TASK",
            CardForm::Srb => b"SRB",
            CardForm::Oper => b"OPER",
            CardForm::Cancel => b"CANCEL",
            CardForm::End => b"END",
            CardForm::Nop => b"NOP",
            CardForm::Get => b"GET",
            CardForm::Free => b"FREE",
            CardForm::Link => b"LINK",
            CardForm::Xctl => b"XCTL",
            CardForm::Return => b"RETURN",
            CardForm::Abend => b"ABEND",
            CardForm::EstaexCt => b"ESTAEX",
            CardForm::EstaexOv => b"ESTAEX",
            CardForm::EstaexZero => b"ESTAEX",
            CardForm::FrrAdd => b"SETFRR",
            CardForm::FrrDelete => b"SETFRR",
            CardForm::FrrReplace => b"SETFRR",
            CardForm::FrrPurge => b"SETFRR",
            CardForm::Attachx => b"ATTACHX",
            CardForm::AttachxEstai => b"ATTACHX",
            CardForm::Detach => b"DETACH",
            CardForm::Abterm => b"CALLRTM",
            CardForm::Memterm => b"CALLRTM",
            CardForm::MgrAdd => b"RESMGR",
            CardForm::MgrDelete => b"RESMGR",
            CardForm::Schedule => b"SCHEDULE",
            CardForm::Wait => b"WAIT",
            CardForm::WaitTask => b"WAITT",
            CardForm::Post => b"POST",
            CardForm::SetRp => b"SETRP",
            CardForm::Ret15 => b"RET15",
            CardForm::Branch => b"B",
            CardForm::IfCode => b"IFCODE",
            CardForm::IfClup => b"IFCLUP",
            CardForm::IfPerc => b"IFPERC",
        }
    }

    /// The operands in the order in which they are written.
    pub fn slots(self) -> &'static [Slot]
        ensures { result.now ≡ slots_of self }
    {
        match self {
            CardForm::Region => &REGION,
            CardForm::Prog => &NONE,
            CardForm::Pend => &NONE,
            CardForm::Task => &TASK,
            CardForm::Srb => &SRB,
            CardForm::Oper => &NONE,
            CardForm::Cancel => &CANCEL,
            CardForm::End => &NONE,
            CardForm::Nop => &NONE,
            CardForm::Get => &GET,
            CardForm::Free => &GET,
            CardForm::Link => &A_PROGRAM,
            CardForm::Xctl => &A_PROGRAM,
            CardForm::Return => &NONE,
            CardForm::Abend => &ABEND,
            CardForm::EstaexCt => &ESTAEX_CT,
            CardForm::EstaexOv => &ESTAEX_OV,
            CardForm::EstaexZero => &ESTAEX_ZERO,
            CardForm::FrrAdd => &FRR_ADD,
            CardForm::FrrDelete => &FRR_DELETE,
            CardForm::FrrReplace => &FRR_REPLACE,
            CardForm::FrrPurge => &FRR_PURGE,
            CardForm::Attachx => &A_TASK,
            CardForm::AttachxEstai => &ATTACHX_ESTAI,
            CardForm::Detach => &DETACH,
            CardForm::Abterm => &ABTERM,
            CardForm::Memterm => &MEMTERM,
            CardForm::MgrAdd => &MGR_ADD,
            CardForm::MgrDelete => &MGR_DELETE,
            CardForm::Schedule => &AN_SRB,
            CardForm::Wait => &WAIT,
            CardForm::WaitTask => &A_TASK,
            CardForm::Post => &WAIT,
            CardForm::SetRp => &SET_RP,
            CardForm::Ret15 => &RET15,
            CardForm::Branch => &A_LABEL,
            CardForm::IfCode => &IF_CODE,
            CardForm::IfClup => &A_LABEL,
            CardForm::IfPerc => &A_LABEL,
        }
    }
}
