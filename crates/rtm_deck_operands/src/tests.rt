//! Operands that are read and written.

ghost use Rattle.rtm_deck_operands.specs.Slot.{IsWellMade};

use super::*;
use crate::read_value::read_value;
use rtm_cards::{CardFault, cut_cards};
use rtm_codes::{Code, NoMemory};
use std::alloc::Global;
use std::test::Fail;

const PROGRAM: Slot = Slot {
    key: *b"PGM     ",
    kind: Kind::Name(NameOf::Program),
    left_out: LeftOut::Needed,
};

const TERM: Slot = Slot {
    key: *b"TERM    ",
    kind: Kind::YesNo,
    left_out: LeftOut::Flag(false),
};

const CANCEL: Slot = Slot {
    key: *b"CANCEL  ",
    kind: Kind::YesNo,
    left_out: LeftOut::Flag(true),
};

// A fixed word, a needed keyword and two that may be left out.
const CREATE: [Slot; 4] = [
    Slot {
        key: *b"        ",
        kind: Kind::Word(*b"CT      "),
        left_out: LeftOut::Needed,
    },
    PROGRAM,
    TERM,
    CANCEL,
];

// Two positional operands.
const HOLD: [Slot; 2] = [
    Slot {
        key: *b"        ",
        kind: Kind::Class,
        left_out: LeftOut::Needed,
    },
    Slot {
        key: *b"        ",
        kind: Kind::Number {
            least: 0,
            most: 999_999,
        },
        left_out: LeftOut::Needed,
    },
];

// A number with a default, and a reason without one.
const COMMAND: [Slot; 3] = [
    Slot {
        key: *b"        ",
        kind: Kind::Name(NameOf::Program),
        left_out: LeftOut::Needed,
    },
    Slot {
        key: *b"AT      ",
        kind: Kind::Number {
            least: 0,
            most: 100_000,
        },
        left_out: LeftOut::Number(0),
    },
    Slot {
        key: *b"REASON  ",
        kind: Kind::Reason,
        left_out: LeftOut::Nothing,
    },
];

// The values that the operands of the first card spell.
fn values_of(alloc: Global, card: &[u8], slots: &[Slot]) -> Result<Option<Values>, CardFault>
    requires { IsWellMade slots.now }
{
    let cut = cut_cards(alloc, card)?;
    for first in &cut.cards {
        return Ok(read_operands(card, &first.operands, slots));
    }
    Ok(None)
}

// Whether the card spells those values.
fn spells(
    alloc: Global,
    card: &str,
    slots: &[Slot],
    values: &[Option<Value>],
) -> Result<bool, CardFault>
    requires { IsWellMade slots.now }
{
    Ok(match values_of(alloc, card.as_bytes(), slots)? {
        None => false,
        Some(found) => found.as_slice() == values,
    })
}

// Whether the card spells no values.
fn is_refused(alloc: Global, card: &str, slots: &[Slot]) -> Result<bool, CardFault>
    requires { IsWellMade slots.now }
{
    Ok(values_of(alloc, card.as_bytes(), slots)?.is_none())
}

fn word() -> Option<Value> {
    Some(Value::Word)
}

fn flag(flag: bool) -> Option<Value> {
    Some(Value::Flag(flag))
}

fn name(text: &str) -> Option<Value> {
    name_of(text.as_bytes()).map(Value::Name)
}

#[test]
fn reads_numbers(rt: HostRuntime) {
    let kind = Kind::Number {
        least: 1,
        most: 100_000,
    };
    let rows = [
        ("1", Some(1)),
        ("100000", Some(100_000)),
        ("0000000007", Some(7)),
        ("0", None),
        ("100001", None),
        ("00000000007", None),
        ("9999999999", None),
        ("", None),
        ("-1", None),
        ("1A", None),
        ("1 ", None),
    ];
    for (text, want) in rows {
        assert_eq!(rt;
            read_value(kind, text.as_bytes()),
            want.map(Value::Number),
            "at {text}"
        );
    }
    let rows = [
        ("0", Some(0)),
        ("04", Some(4)),
        ("16", Some(16)),
        ("8", None),
        ("4294967296", None),
        ("", None),
    ];
    for (text, want) in rows {
        assert_eq!(rt;
            read_value(Kind::ReturnCode, text.as_bytes()),
            want.map(Value::Number),
            "at {text}"
        );
    }
}

#[test]
fn reads_reasons(rt: HostRuntime) {
    let rows = [
        ("0", Some(0)),
        ("10", Some(0x10)),
        ("0000000A", Some(10)),
        ("FFFFFFFF", Some(u32::MAX)),
        ("00000000A", None),
        ("a", None),
        ("G", None),
        ("", None),
    ];
    for (text, want) in rows {
        assert_eq!(rt;
            read_value(Kind::Reason, text.as_bytes()),
            want.map(Value::Reason),
            "at {text}"
        );
    }
}

#[test]
fn reads_codes(rt: HostRuntime) {
    let rows = [
        ("S0C4", Some(Code::Sys(0x0c4)), true),
        ("S000", Some(Code::Sys(0)), false),
        ("U0", Some(Code::User(0)), true),
        ("U0020", Some(Code::User(20)), true),
        ("U4096", None, false),
        ("s0C4", None, false),
        ("", None, false),
    ];
    for (text, code, ends) in rows {
        let want = code.map(Value::Code);
        assert_eq!(rt; read_value(Kind::Code, text.as_bytes()), want, "at {text}");
        let want = want.filter(|_| ends);
        assert_eq!(rt;
            read_value(Kind::AbendCode, text.as_bytes()),
            want,
            "at {text}"
        );
    }
}

#[test]
fn reads_words(rt: HostRuntime) {
    let rows = [
        (Kind::Word(*b"CT      "), "CT", Some(Value::Word)),
        (Kind::Word(*b"CT      "), "CTX", None),
        (Kind::Word(*b"CT      "), "", None),
        (Kind::YesNo, "YES", Some(Value::Flag(true))),
        (Kind::YesNo, "NO", Some(Value::Flag(false))),
        (Kind::YesNo, "IGNORE", None),
        (Kind::YesNo, "yes", None),
        (Kind::YesNoIgnore, "YES", Some(Value::Three(Three::Yes))),
        (Kind::YesNoIgnore, "NO", Some(Value::Three(Three::No))),
        (
            Kind::YesNoIgnore,
            "IGNORE",
            Some(Value::Three(Three::Ignore)),
        ),
        (Kind::YesNoIgnore, "", None),
        (Kind::Class, "ENQ", Some(Value::Class(Res::Enq))),
        (Kind::Class, "STOR", Some(Value::Class(Res::Stor))),
        (Kind::Class, "DSN", Some(Value::Class(Res::Dsn))),
        (Kind::Class, "TIMR", Some(Value::Class(Res::Timr))),
        (Kind::Class, "TIMER", None),
        (Kind::Scope, "SPACE", Some(Value::Flag(true))),
        (Kind::Scope, "TASK", Some(Value::Flag(false))),
        (Kind::Scope, "NO", None),
    ];
    for (kind, text, want) in rows {
        assert_eq!(rt; read_value(kind, text.as_bytes()), want, "at {text}");
    }
}

#[test]
fn reads_names(rt: HostRuntime) {
    let names = ["A", "Z9", "@", "#$@", "ABCDEFGH"];
    for text in names {
        assert!(rt; name_of(text.as_bytes()).is_some(), "at {text}");
    }
    let others = ["", "9", "a", "A B", "A-", "ABCDEFGHI", " A"];
    for text in others {
        assert!(rt; name_of(text.as_bytes()).is_none(), "at {text}");
    }
    let bytes = name_of(b"A9").map(|name| name.0);
    assert!(rt; bytes == Some([b'A', b'9', b' ', b' ', b' ', b' ', b' ', b' ']));
}

#[test]
fn reads_operands_in_any_order(rt: HostRuntime) -> Result<(), Fail> {
    let values = [word(), name("W"), flag(false), flag(true)];
    assert!(rt; spells(rt.alloc(), " X CT,PGM=W", &CREATE, &values)?);
    let values = [word(), name("W"), flag(true), flag(true)];
    assert!(rt; spells(rt.alloc(), " X CT,TERM=YES,PGM=W", &CREATE, &values)?);
    let values = [word(), name("W"), flag(false), flag(false)];
    assert!(rt;
        spells(
            rt.alloc(),
            " X CT,CANCEL=NO,PGM=W,TERM=NO",
            &CREATE,
            &values
        )?
    );
    let values = [Some(Value::Class(Res::Enq)), Some(Value::Number(7))];
    assert!(rt; spells(rt.alloc(), " GET ENQ,0007", &HOLD, &values)?);
    let values = [name("JOB"), Some(Value::Number(0)), None];
    assert!(rt; spells(rt.alloc(), " CANCEL JOB", &COMMAND, &values)?);
    let values = [name("JOB"), Some(Value::Number(9)), Some(Value::Reason(0))];
    assert!(rt; spells(rt.alloc(), " CANCEL JOB,REASON=0,AT=9", &COMMAND, &values)?);
    Ok(())
}

#[test]
fn refuses_other_operands(rt: HostRuntime) -> Result<(), Fail> {
    let cards = [
        " X",
        " X CT",
        " X PGM=W",
        " X PGM=W,CT",
        " X OV,PGM=W",
        " X CT,PGM=W,PGM=W",
        " X CT,PGM=W,TERM=NO,TERM=NO",
        " X CT,PGM=W,XCTL=NO",
        " X CT,PGM=W,",
        " X CT,,PGM=W",
        " X CT,PGM=",
        " X CT,PGM=W=V",
        " X CT,PGM",
        " X CT,PGM=W,TERM",
        " X CT,PGM=9",
        " X CT,PGM=W,A,B,C,D,E,F,G",
    ];
    for card in cards {
        assert!(rt; is_refused(rt.alloc(), card, &CREATE)?, "at {card}");
    }
    let cards = [" GET 7,ENQ", " GET ENQ", " GET ENQ,1000000", " GET ENQ,7,8"];
    for card in cards {
        assert!(rt; is_refused(rt.alloc(), card, &HOLD)?, "at {card}");
    }
    Ok(())
}

#[test]
fn writes_operands(rt: HostRuntime) -> Result<(), NoMemory> {
    let mut out = Vec::new(rt.alloc());
    let values = [Some(Value::Class(Res::Dsn)), Some(Value::Number(100))];
    push_operands(&mut out, &HOLD, &values)?;
    assert_eq!(rt; out.as_slice(), b" DSN,100".as_slice());
    out.clear();
    if let Some(name) = name_of(b"JOB") {
        push_name(&mut out, &name)?;
        let values = [
            Some(Value::Name(name)),
            Some(Value::Number(0)),
            Some(Value::Reason(0xbeef)),
        ];
        push_operands(&mut out, &COMMAND, &values)?;
    }
    assert_eq!(rt; out.as_slice(), b"JOB JOB,REASON=BEEF".as_slice());
    Ok(())
}

#[test]
fn laws_are_calls() {
    laws::reading_is_spelling();
    laws::spelling_is_unique();
    laws::spelled_values_fit();
    laws::written_is_read();
    laws::written_is_shortest();
    laws::written_is_plain();
    laws::fields_are_joined();
}
