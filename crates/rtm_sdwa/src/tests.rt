//! Records: their flags, steps, verdicts and bytes.

ghost use Rattle.std.specs.Prelude.{IsTrue};
ghost use Rattle.rtm_model.specs.SetrpCard.{is_given_return_code};

use crate::{Sdwa, SdwaFlags, sdwa_bytes, sdwa_read};
use bitflags::Flags;
use rtm_codes::Code;
use rtm_deck_items::{Name, Setrp, Three};
use rtm_model::{Abort, Class, Kind, Place, RecordFlags, Verdict};
use std::test::Fail;

const NO_FLAGS: RecordFlags = RecordFlags {
    clup: false,
    perc: false,
    staf: false,
    step: false,
    reason: false,
    term_only: false,
    dump: false,
    remrec: false,
    logrec: false,
    fresdwa: false,
};

const NO_OPTIONS: Setrp = Setrp {
    rc: None,
    retaddr: None,
    remrec: None,
    compcod: None,
    reason: None,
    dump: None,
    logrec: None,
    fresdwa: None,
};

// Each flag and its bit, from the table of the record's layout.
#[test]
fn each_flag_has_its_bit(rt: HostRuntime) {
    let cases = [
        ("CLUP", 0x8000),
        ("PERC", 0x4000),
        ("STAF", 0x2000),
        ("STEP", 0x1000),
        ("REASON", 0x0800),
        ("TERMONLY", 0x0400),
        ("DUMP", 0x0200),
        ("REMREC", 0x0100),
        ("LOGREC", 0x0080),
        ("FRESDWA", 0x0040),
    ];
    for (name, bit) in cases {
        let flag = SdwaFlags::from_name(name);
        assert_eq!(rt; flag.map(|flag| flag.bits()), Some(bit), "at {name}");
        let ten = SdwaFlags::from_bits_retain(bit).ten();
        assert_eq!(rt; SdwaFlags::of(ten).bits(), bit, "at {name}");
    }
}

// What the errors of cards, and the aborts that land, ask for at first.
#[test]
fn starts_with_what_is_asked_for(rt: HostRuntime) {
    let abort = Abort {
        class: Class::Detach,
        from: 3,
        code: Code::Sys(0x13e),
        reason: Some(8),
        dump: true,
        retry: false,
        term_only: true,
    };
    let mild = Abort {
        class: Class::Abterm,
        from: 4,
        code: Code::User(5),
        reason: None,
        dump: false,
        retry: true,
        term_only: false,
    };
    let cases = [
        (
            Sdwa::of_card(true, Code::Sys(0x0c4), Some(16), false, true),
            RecordFlags {
                clup: true,
                step: true,
                reason: true,
                ..NO_FLAGS
            },
        ),
        (
            Sdwa::of_card(false, Code::User(7), None, true, false),
            RecordFlags {
                dump: true,
                ..NO_FLAGS
            },
        ),
        (
            Sdwa::of_abort(&abort),
            RecordFlags {
                clup: true,
                reason: true,
                term_only: true,
                dump: true,
                ..NO_FLAGS
            },
        ),
        (Sdwa::of_abort(&mild), NO_FLAGS),
    ];
    for (sdwa, flags) in cases {
        assert_eq!(rt; sdwa.flags, SdwaFlags::of(flags), "at {sdwa:?}");
        assert!(rt; sdwa.rc == 0 && sdwa.retaddr.is_none(), "at {sdwa:?}");
    }
}

// The bytes of an 0C4 with the reason 10, and of a user abend 4095 after a label was set.
#[test]
fn writes_and_reads_bytes(rt: HostRuntime) {
    let mut abend = Sdwa::fresh(Code::User(4095), None, SdwaFlags::of(NO_FLAGS));
    abend.setrp(&Setrp {
        rc: Some(4),
        retaddr: Some(Name(*b"AGAIN   ")),
        ..NO_OPTIONS
    });
    let cases = [
        (
            Sdwa::fresh(Code::Sys(0x0c4), Some(16), SdwaFlags::of(NO_FLAGS)),
            *b"SDWA\x00\x0c\x40\x00\x00\x0c\x40\x00\x00\x00\x00\x10\x08\x00\x00\x00        \0\0\0\0\0\0\0\0\0\0\0\0\0\0\0\0\0\0\0\0",
        ),
        (
            abend,
            *b"SDWA\x80\x00\x0f\xff\x80\x00\x0f\xff\x00\x00\x00\x00\x00\x00\x04\x00AGAIN   \0\0\0\0\0\0\0\0\0\0\0\0\0\0\0\0\0\0\0\0",
        ),
    ];
    for (sdwa, bytes) in cases {
        assert_eq!(rt; sdwa_bytes(&sdwa), bytes);
        let read = sdwa_read(&bytes);
        assert_eq!(rt; read.map(|sdwa| sdwa_bytes(&sdwa)), Some(bytes));
    }
}

// One byte of a record's bytes, written over, which no record has.
#[test]
fn reads_no_other_bytes(rt: HostRuntime) {
    let bytes =
        *b"SDWA\x00\x0c\x40\x00\x00\x0c\x40\x00\x00\x00\x00\x10\x08\x00\x00\x00        \0\0\0\0\0\0\0\0\0\0\0\0\0\0\0\0\0\0\0\0";
    let cases = [
        (0, b's'),
        (4, 1),
        (7, 1),
        (8, 0x80),
        (16, 0),
        (17, 1),
        (17, 0x20),
        (18, 8),
        (19, 1),
        (20, b'1'),
        (21, b'A'),
        (28, 1),
        (47, 1),
    ];
    for (place, byte) in cases {
        let mut other = bytes;
        if let Some(old) = other.get_mut(place) {
            *old = byte;
        }
        assert!(rt; sdwa_read(&other).is_none(), "at {place}");
    }
}

// SETRP's DUMP=, and what percolation leaves of what a routine asked for.
#[test]
fn sets_and_forgets_options(rt: HostRuntime) {
    let cases = [
        (None, 0x0a00),
        (Some(Three::Yes), 0x0a00),
        (Some(Three::Ignore), 0x0a00),
        (Some(Three::No), 0x0800),
    ];
    for (dump, want) in cases {
        let flags = SdwaFlags::of(RecordFlags {
            dump: true,
            ..NO_FLAGS
        });
        let mut sdwa = Sdwa::fresh(Code::Sys(0x0c1), Some(0), flags);
        sdwa.setrp(&Setrp {
            dump,
            remrec: Some(true),
            logrec: Some(Three::Yes),
            fresdwa: Some(true),
            compcod: Some(Code::User(1)),
            ..NO_OPTIONS
        });
        assert_eq!(rt; sdwa.flags.bits(), want + 0x01c0, "at {dump:?}");
        assert_eq!(rt; (sdwa.code, sdwa.first), (Code::User(1), Code::Sys(0x0c1)));
        sdwa.percolate();
        assert_eq!(rt; sdwa.flags.bits(), want + 0x4000, "at {dump:?}");
        let mark = sdwa.mark();
        assert!(rt; mark.perc && !mark.staf && !mark.clup, "at {dump:?}");
    }
}

// RET15 without a label leaves the one that is there, and all else but the return code.
#[test]
fn stores_what_ret15_names(rt: HostRuntime) {
    let mut sdwa = Sdwa::fresh(Code::Sys(0x0c1), Some(7), SdwaFlags::of(NO_FLAGS));
    let cases = [
        (0, None, None),
        (4, Some(Name(*b"AGAIN   ")), Some(Name(*b"AGAIN   "))),
        (16, None, Some(Name(*b"AGAIN   "))),
        (0, Some(Name(*b"BACK    ")), Some(Name(*b"BACK    "))),
    ];
    for (rc, given, want) in cases {
        sdwa.ret15(rc, given);
        assert_eq!(rt; (sdwa.rc, sdwa.retaddr), (rc, want), "at {rc}");
        assert_eq!(rt; (sdwa.code, sdwa.flags.bits()), (Code::Sys(0x0c1), 0x0800));
    }
}

// A cancel of a routine: its record's code, reason and flags, on or off, are taken over, and STEP stays.
#[test]
fn hands_a_cancel_on(rt: HostRuntime) {
    let cancel = SdwaFlags::of(RecordFlags {
        clup: true,
        term_only: true,
        ..NO_FLAGS
    });
    let inner = Sdwa::fresh(Code::Sys(0x222), None, cancel);
    let cases = [
        (0x1200, Code::Sys(0x222), 0xb400),
        (0x9200, Code::Sys(0x0c1), 0xba00),
    ];
    for (before, code, after) in cases {
        let mut outer = Sdwa::fresh(
            Code::Sys(0x0c1),
            Some(7),
            SdwaFlags::from_bits_retain(before),
        );
        outer.inner_failed(&inner);
        assert_eq!(rt;
            (outer.code, outer.first),
            (code, Code::Sys(0x0c1)),
            "at {before:04x}"
        );
        assert_eq!(rt; outer.flags.bits(), after, "at {before:04x}");
    }
}

// A record whose routine asked for that.
fn record_with_rc(rc: Option<u8>) -> Sdwa
    requires { IsTrue (is_given_return_code rc) }
{
    let mut sdwa = Sdwa::fresh(Code::Sys(0x0c1), None, SdwaFlags::of(NO_FLAGS));
    sdwa.setrp(&Setrp { rc, ..NO_OPTIONS });
    sdwa
}

// The table of verdicts, with the place of a retry or none.
#[test]
fn judges_by_the_table(rt: HostRuntime) {
    let place = Place { prog: 0, op: 2 };
    let cases = [
        (
            Kind::Frr,
            record_with_rc(Some(4)),
            Some(place),
            Verdict::Retry(place),
        ),
        (Kind::Estae, record_with_rc(Some(4)), None, Verdict::Bad),
        (Kind::Estae, record_with_rc(Some(16)), None, Verdict::Bad),
        (Kind::Estai, record_with_rc(Some(16)), None, Verdict::Stop),
        (Kind::Estai, record_with_rc(Some(0)), None, Verdict::Perc),
        (Kind::Frr, record_with_rc(None), None, Verdict::Perc),
    ];
    for (kind, sdwa, place, want) in cases {
        assert_eq!(rt; sdwa.verdict_by(kind, place), want, "at {kind:?} {sdwa:?}");
    }
}
