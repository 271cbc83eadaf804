//! A deck with each card, and its canonical text.

ghost use Rattle.std.specs.Prelude.{◌≡◌, ◌⊎◌};

use super::*;
use rtm_codes::{Code, NoMemory};
use rtm_deck_items::{Command, Deck, Line, Name, Op, Program, Res, Setrp, Three, Unit, UnitKind};
use std::alloc::Global;
use std::test::Fail;

// What the deck below is written as: each card once, and once more where it has operands that may be left out.
const TEXT: &[u8] = b" REGION LIMIT=1
MAIN PROG
A NOP
@2345678 GET ENQ,0
 GET STOR,999999
 FREE DSN,7
 FREE TIMR,10
 LINK ONE
 XCTL MAIN
 RETURN
 ABEND S0C1
 ABEND U7,REASON=FF,DUMP=YES,STEP=YES
 ESTAEX CT,PGM=ONE
 ESTAEX CT,PGM=ONE,TERM=YES,CANCEL=NO,XCTL=YES
 ESTAEX OV,PGM=ONE
 ESTAEX OV,PGM=ONE,TERM=YES,CANCEL=NO,XCTL=YES
 ESTAEX 0
 SETFRR A,PGM=ONE
 SETFRR D
 SETFRR R,PGM=ONE
 SETFRR P
 ATTACHX SUB
 ATTACHX SUB,ESTAI=ONE
 ATTACHX SUB,ESTAI=ONE,TERM=YES
 DETACH SUB
 DETACH SUB,STAE=YES
 CALLRTM ABTERM,TASK=SUB,COMPCOD=U4095
 CALLRTM ABTERM,TASK=SUB,COMPCOD=S222,REASON=0,DUMP=YES,RETRY=NO
 CALLRTM MEMTERM,COMPCOD=S40D
 RESMGR ADD,PGM=ONE,TYPE=TASK
 RESMGR DELETE,PGM=ONE,TYPE=SPACE
 SCHEDULE S1
 WAIT 255
 WAITT SUB
 POST 0
 B A
 IFCODE S000,A
 IFCLUP A
 IFPERC @2345678
 PEND
ONE PROG
 SETRP RC=16,RETADDR=A,REMREC=YES,COMPCOD=U0
 SETRP REASON=FFFFFFFF,DUMP=IGNORE,RECORD=NO,FRESDWA=NO
 RET15 16
 RET15 0,RETADDR=@2345678
 PEND
JOB TASK PGM=MAIN
SUB TASK PGM=ONE
S1 SRB PGM=ONE
S2 SRB PGM=ONE,TASK=SUB
 OPER
 CANCEL SUB
 CANCEL JOB,AT=100000,DUMP=YES
 END
";

macro_rules! card {
    ($op:expr) => {
        Line {
            label: None,
            op: $op,
        }
    };
    ($label:literal, $op:expr) => {
        Line {
            label: Some(Name(*$label)),
            op: $op,
        }
    };
}

fn sample(alloc: Global) -> Result<Deck, NoMemory> {
    let label = Name(*b"A       ");
    let lines = Vec::from_array(
        alloc,
        [
            card!(b"A       ", Op::Nop),
            card!(
                b"@2345678",
                Op::Get {
                    class: Res::Enq,
                    id: 0
                }
            ),
            card!(Op::Get {
                class: Res::Stor,
                id: 999_999
            }),
            card!(Op::Free {
                class: Res::Dsn,
                id: 7
            }),
            card!(Op::Free {
                class: Res::Timr,
                id: 10
            }),
            card!(Op::Link { prog: 1 }),
            card!(Op::Xctl { prog: 0 }),
            card!(Op::Return),
            card!(Op::Abend {
                code: Code::Sys(0xC1),
                reason: None,
                dump: false,
                step: false
            }),
            card!(Op::Abend {
                code: Code::User(7),
                reason: Some(255),
                dump: true,
                step: true
            }),
            card!(Op::EstaexCt {
                prog: 1,
                term: false,
                cancel: true,
                xctl: false
            }),
            card!(Op::EstaexCt {
                prog: 1,
                term: true,
                cancel: false,
                xctl: true
            }),
            card!(Op::EstaexOv {
                prog: 1,
                term: false,
                cancel: true,
                xctl: false
            }),
            card!(Op::EstaexOv {
                prog: 1,
                term: true,
                cancel: false,
                xctl: true
            }),
            card!(Op::EstaexZero),
            card!(Op::FrrAdd { prog: 1 }),
            card!(Op::FrrDelete),
            card!(Op::FrrReplace { prog: 1 }),
            card!(Op::FrrPurge),
            card!(Op::Attachx {
                unit: 1,
                estai: None,
                term: false
            }),
            card!(Op::Attachx {
                unit: 1,
                estai: Some(1),
                term: false
            }),
            card!(Op::Attachx {
                unit: 1,
                estai: Some(1),
                term: true
            }),
            card!(Op::Detach {
                unit: 1,
                stae: false
            }),
            card!(Op::Detach {
                unit: 1,
                stae: true
            }),
            card!(Op::Abterm {
                unit: 1,
                code: Code::User(4095),
                reason: None,
                dump: false,
                retry: true
            }),
            card!(Op::Abterm {
                unit: 1,
                code: Code::Sys(0x222),
                reason: Some(0),
                dump: true,
                retry: false
            }),
            card!(Op::Memterm {
                code: Code::Sys(0x40D)
            }),
            card!(Op::MgrAdd {
                prog: 1,
                space: false
            }),
            card!(Op::MgrDelete {
                prog: 1,
                space: true
            }),
            card!(Op::Schedule { unit: 2 }),
            card!(Op::Wait { event: 255 }),
            card!(Op::WaitTask { unit: 1 }),
            card!(Op::Post { event: 0 }),
            card!(Op::Branch { label }),
            card!(Op::IfCode {
                code: Code::Sys(0),
                label
            }),
            card!(Op::IfClup { label }),
            card!(Op::IfPerc {
                label: Name(*b"@2345678")
            }),
        ],
    )?;
    let recovery = Vec::from_array(
        alloc,
        [
            card!(Op::SetRp(Setrp {
                rc: Some(16),
                retaddr: Some(label),
                remrec: Some(true),
                compcod: Some(Code::User(0)),
                reason: None,
                dump: None,
                logrec: None,
                fresdwa: None,
            })),
            card!(Op::SetRp(Setrp {
                rc: None,
                retaddr: None,
                remrec: None,
                compcod: None,
                reason: Some(u32::MAX),
                dump: Some(Three::Ignore),
                logrec: Some(Three::No),
                fresdwa: Some(false),
            })),
            card!(Op::Ret15 {
                rc: 16,
                label: None
            }),
            card!(Op::Ret15 {
                rc: 0,
                label: Some(Name(*b"@2345678"))
            }),
        ],
    )?;
    let programs = Vec::from_array(
        alloc,
        [
            Program::new(alloc, Name(*b"MAIN    "), lines)?,
            Program::new(alloc, Name(*b"ONE     "), recovery)?,
        ],
    )?;
    let units = Vec::from_array(
        alloc,
        [
            Unit {
                name: Name(*b"JOB     "),
                kind: UnitKind::Task,
                prog: 0,
                related: None,
            },
            Unit {
                name: Name(*b"SUB     "),
                kind: UnitKind::Task,
                prog: 1,
                related: None,
            },
            Unit {
                name: Name(*b"S1      "),
                kind: UnitKind::Srb,
                prog: 1,
                related: None,
            },
            Unit {
                name: Name(*b"S2      "),
                kind: UnitKind::Srb,
                prog: 1,
                related: Some(1),
            },
        ],
    )?;
    let commands = Vec::from_array(
        alloc,
        [
            Command {
                target: 1,
                at: 0,
                dump: false,
            },
            Command {
                target: 0,
                at: 100_000,
                dump: true,
            },
        ],
    )?;
    Ok(Deck {
        limit: 1,
        sdwa: true,
        programs,
        units,
        commands,
    })
}

#[test]
fn writes_each_card(rt: HostRuntime) -> Result<(), Fail> {
    let deck = sample(rt.alloc())?;
    let text = deck_text(rt.alloc(), &deck)?;
    assert_eq!(rt; text.as_slice(), TEXT);
    Ok(())
}

// A deck of one task, with that REGION card or none.
fn deck_of_region(alloc: Global, limit: u32, sdwa: bool) -> Result<Deck, NoMemory>
    requires { (limit ≡ 20000) ⊎ (limit ≡ 7) }
{
    let programs = Vec::from_array(
        alloc,
        [Program::new(alloc, Name(*b"MAIN    "), Vec::new(alloc))?],
    )?;
    let units = Vec::from_array(
        alloc,
        [Unit {
            name: Name(*b"JOB     "),
            kind: UnitKind::Task,
            prog: 0,
            related: None,
        }],
    )?;
    Ok(Deck {
        limit,
        sdwa,
        programs,
        units,
        commands: Vec::new(alloc),
    })
}

fn text_of_region(alloc: Global, limit: u32, sdwa: bool) -> Result<Vec<u8>, NoMemory>
    requires { (limit ≡ 20000) ⊎ (limit ≡ 7) }
{
    let deck = deck_of_region(alloc, limit, sdwa)?;
    deck_text(alloc, &deck)
}

#[test]
fn writes_region_where_it_has_to_stand(rt: HostRuntime) -> Result<(), Fail> {
    let text = text_of_region(rt.alloc(), 20_000, true)?;
    assert_eq!(rt;
        text.as_slice(),
        b"MAIN PROG\n PEND\nJOB TASK PGM=MAIN\n END\n".as_slice()
    );
    let text = text_of_region(rt.alloc(), 20_000, false)?;
    assert_eq!(rt;
        text.as_slice(),
        b" REGION SDWA=NO\nMAIN PROG\n PEND\nJOB TASK PGM=MAIN\n END\n".as_slice()
    );
    let text = text_of_region(rt.alloc(), 7, true)?;
    assert_eq!(rt;
        text.as_slice(),
        b" REGION LIMIT=7\nMAIN PROG\n PEND\nJOB TASK PGM=MAIN\n END\n".as_slice()
    );
    let text = text_of_region(rt.alloc(), 7, false)?;
    assert_eq!(rt;
        text.as_slice(),
        b" REGION LIMIT=7,SDWA=NO\nMAIN PROG\n PEND\nJOB TASK PGM=MAIN\n END\n".as_slice()
    );
    Ok(())
}
