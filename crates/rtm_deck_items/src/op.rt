//! The operations of programs.

use rtm_codes::Code;
use rtm_deck_operands::{Name, Res, Three};

/// The options that a SETRP card gives; at least one is given (Assembler Services Reference, SETRP).
#[derive(Clone, Copy, Debug, PartialEq, Eq)]
pub struct Setrp {
    /// 0, 4 or 16.
    pub rc: Option<u8>,
    pub retaddr: Option<Name>,
    pub remrec: Option<bool>,
    /// Not S000.
    pub compcod: Option<Code>,
    pub reason: Option<u32>,
    pub dump: Option<Three>,
    pub logrec: Option<Three>,
    pub fresdwa: Option<bool>,
}

/// What a card of a program does. Programs and units are named by their numbers in the deck, from 0.
#[derive(Clone, Copy, Debug, PartialEq, Eq)]
pub enum Op {
    Nop,
    /// The number of the resource is 0 to 999999.
    Get {
        class: Res,
        id: u32,
    },
    Free {
        class: Res,
        id: u32,
    },
    Link {
        prog: u16,
    },
    Xctl {
        prog: u16,
    },
    Return,
    /// The code isn't S000.
    Abend {
        code: Code,
        reason: Option<u32>,
        dump: bool,
        step: bool,
    },
    EstaexCt {
        prog: u16,
        term: bool,
        cancel: bool,
        xctl: bool,
    },
    EstaexOv {
        prog: u16,
        term: bool,
        cancel: bool,
        xctl: bool,
    },
    EstaexZero,
    FrrAdd {
        prog: u16,
    },
    FrrDelete,
    FrrReplace {
        prog: u16,
    },
    FrrPurge,
    Attachx {
        unit: u16,
        estai: Option<u16>,
        term: bool,
    },
    Detach {
        unit: u16,
        stae: bool,
    },
    Abterm {
        unit: u16,
        code: Code,
        reason: Option<u32>,
        dump: bool,
        retry: bool,
    },
    Memterm {
        code: Code,
    },
    MgrAdd {
        prog: u16,
        space: bool,
    },
    MgrDelete {
        prog: u16,
        space: bool,
    },
    Schedule {
        unit: u16,
    },
    Wait {
        event: u8,
    },
    WaitTask {
        unit: u16,
    },
    Post {
        event: u8,
    },
    SetRp(Setrp),
    /// What a routine without an SDWA leaves in register 15: the return code 0, 4 or 16, and where a retry goes.
    Ret15 {
        rc: u8,
        label: Option<Name>,
    },
    Branch {
        label: Name,
    },
    IfCode {
        code: Code,
        label: Name,
    },
    IfClup {
        label: Name,
    },
    IfPerc {
        label: Name,
    },
}
