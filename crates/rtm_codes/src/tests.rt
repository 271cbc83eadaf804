//! Completion codes, as texts and as words.

use crate::{Code, code_short, code_text, is_in_range, laws, packed, read_code, unpacked};

#[test]
fn reads_texts(rt: HostRuntime) {
    let cases = [
        ("S0C4", Some(Code::Sys(0x0c4))),
        ("S222", Some(Code::Sys(0x222))),
        ("SFFF", Some(Code::Sys(4095))),
        ("S000", Some(Code::Sys(0))),
        ("U0", Some(Code::User(0))),
        ("U7", Some(Code::User(7))),
        ("U07", Some(Code::User(7))),
        ("U0007", Some(Code::User(7))),
        ("U4095", Some(Code::User(4095))),
    ];
    for (text, want) in cases {
        assert_eq!(rt; read_code(text.as_bytes()), want, "at {text}");
    }
}

#[test]
fn refuses_other_texts(rt: HostRuntime) {
    let texts = [
        "S0c4", "S0G4", "S", "S0C", "S00C4", "s0C4", " S0C4", "S0C4 ", "U4096", "U9999", "U00000",
        "U", "U00A", "u7", "U-1", "U 7", "", "0C4", "7", "A0C4",
    ];
    for text in texts {
        assert_eq!(rt; read_code(text.as_bytes()), None, "at {text}");
    }
}

#[test]
fn writes_texts(rt: HostRuntime) {
    let cases = [
        (Code::Sys(0), "S000", "S000"),
        (Code::Sys(0x0c4), "S0C4", "S0C4"),
        (Code::Sys(0xa03), "SA03", "SA03"),
        (Code::Sys(4095), "SFFF", "SFFF"),
        (Code::User(0), "U0000", "U0"),
        (Code::User(7), "U0007", "U7"),
        (Code::User(10), "U0010", "U10"),
        (Code::User(305), "U0305", "U305"),
        (Code::User(1000), "U1000", "U1000"),
        (Code::User(4095), "U4095", "U4095"),
    ];
    for (code, text, short) in cases {
        assert!(rt; is_in_range(code), "at {code:?}");
        assert_eq!(rt; code_text(code).as_slice(), text.as_bytes(), "at {code:?}");
        assert_eq!(rt;
            code_short(code).as_slice(),
            short.as_bytes(),
            "at {code:?}"
        );
    }
    assert!(rt; !is_in_range(Code::Sys(4096)));
    assert!(rt; !is_in_range(Code::User(65535)));
}

#[test]
fn packs_and_unpacks_words(rt: HostRuntime) {
    let cases = [
        (Code::Sys(0), 0),
        (Code::Sys(0x0c4), 0x000c_4000),
        (Code::Sys(4095), 0x00ff_f000),
        (Code::User(0), 0x8000_0000),
        (Code::User(7), 0x8000_0007),
        (Code::User(4095), 0x8000_0fff),
    ];
    for (code, word) in cases {
        assert!(rt; is_in_range(code), "at {code:?}");
        assert_eq!(rt; packed(code), word, "at {code:?}");
        assert_eq!(rt; unpacked(word), Some(code), "at {word:08x}");
    }
    let others = [
        1,
        0xfff,
        0x4001,
        0x100_0000,
        0x1000_0000,
        0x8000_1000,
        0xffff_ffff,
    ];
    for word in others {
        assert_eq!(rt; unpacked(word), None, "at {word:08x}");
    }
}

#[test]
fn laws_are_calls() {
    laws::sameness_is_equality();
    laws::reading_is_spelling();
    laws::spelling_is_unique();
    laws::spelled_is_in_range();
    laws::written_is_read();
    laws::short_is_shortest();
    laws::written_is_unique();
    laws::spellings_are_short();
    laws::spellings_are_visible();
    laws::words_fit();
}
