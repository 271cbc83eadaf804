//! Decks that are scanned, and the faults of others.

use crate::program_tests::is_answered;
use rtm_top::Status;
use std::test::Fail;

// A deck of every card and every operand, at its default and not, in a loose spelling, and its canonical text.
const LOOSE_DECK: &str = "\
* every card and every operand, at its default and not\n\
\x20REGION   LIMIT=000300\n\
ALPHA PROG\n\
L1 NOP\n\
\x20GET ENQ,0\n\
\x20GET STOR,999999\n\
\x20FREE DSN,07\n\
\x20FREE TIMR,1\n\
\x20LINK BETA\n\
\x20XCTL BETA\n\
\x20RETURN\n\
\x20ABEND S0C4\n\
\x20ABEND U0001,STEP=YES,DUMP=YES,REASON=0000000A\n\
\x20ABEND U1,DUMP=NO,STEP=NO\n\
\x20ESTAEX CT,PGM=BETA\n\
\x20ESTAEX CT,XCTL=YES,CANCEL=NO,TERM=YES,PGM=BETA\n\
\x20ESTAEX CT,PGM=BETA,XCTL=NO,CANCEL=YES,TERM=NO\n\
\x20ESTAEX OV,PGM=BETA\n\
\x20ESTAEX OV,PGM=BETA,CANCEL=NO\n\
\x20ESTAEX 0\n\
\x20SETFRR A,PGM=BETA\n\
\x20SETFRR D\n\
\x20SETFRR R,PGM=BETA\n\
\x20SETFRR P\n\
\x20ATTACHX T\n\
\x20ATTACHX T,TERM=YES,ESTAI=BETA\n\
\x20ATTACHX T,ESTAI=BETA,TERM=NO\n\
\x20DETACH T\n\
\x20DETACH T,STAE=YES\n\
\x20DETACH T,STAE=NO\n\
\x20CALLRTM ABTERM,COMPCOD=S122,TASK=T\n\
\x20CALLRTM ABTERM,TASK=T,COMPCOD=U99,RETRY=NO,DUMP=YES,REASON=00\n\
\x20CALLRTM ABTERM,TASK=T,COMPCOD=U99,RETRY=YES,DUMP=NO\n\
\x20CALLRTM MEMTERM,COMPCOD=U4095\n\
\x20RESMGR ADD,TYPE=TASK,PGM=BETA\n\
\x20RESMGR ADD,PGM=BETA,TYPE=SPACE\n\
\x20RESMGR DELETE,PGM=BETA,TYPE=TASK\n\
\x20RESMGR DELETE,PGM=BETA,TYPE=SPACE\n\
\x20SCHEDULE S\n\
\x20WAIT 255\n\
\x20WAIT 000\n\
\x20WAITT T\n\
\x20POST 3\n\
\x20SETRP RC=04\n\
\x20SETRP FRESDWA=NO,RECORD=IGNORE,DUMP=NO,REMREC=NO,RC=16\n\
\x20SETRP REASON=0,COMPCOD=U5,RETADDR=L1,RC=4\n\
\x20SETRP DUMP=YES,RECORD=YES\n\
\x20SETRP DUMP=IGNORE,RECORD=NO,FRESDWA=YES,REMREC=YES\n\
\x20B L1\n\
\x20IFCODE S000,L1\n\
\x20IFCLUP L1\n\
\x20IFPERC L1\n\
\x20PEND\n\
JOB TASK PGM=ALPHA\n\
S SRB TASK=JOB,PGM=BETA\n\
\n\
R SRB PGM=BETA\n\
T TASK PGM=BETA a remark\n\
BETA PROG\n\
\x20PEND ends it\n\
\x20OPER\n\
\x20CANCEL JOB\n\
\x20CANCEL T,DUMP=YES,AT=100000\n\
\x20CANCEL T,AT=0,DUMP=NO\n\
\x20END\
";

const TIGHT_DECK: &str = "\
\x20REGION LIMIT=300\n\
ALPHA PROG\n\
L1 NOP\n\
\x20GET ENQ,0\n\
\x20GET STOR,999999\n\
\x20FREE DSN,7\n\
\x20FREE TIMR,1\n\
\x20LINK BETA\n\
\x20XCTL BETA\n\
\x20RETURN\n\
\x20ABEND S0C4\n\
\x20ABEND U1,REASON=A,DUMP=YES,STEP=YES\n\
\x20ABEND U1\n\
\x20ESTAEX CT,PGM=BETA\n\
\x20ESTAEX CT,PGM=BETA,TERM=YES,CANCEL=NO,XCTL=YES\n\
\x20ESTAEX CT,PGM=BETA\n\
\x20ESTAEX OV,PGM=BETA\n\
\x20ESTAEX OV,PGM=BETA,CANCEL=NO\n\
\x20ESTAEX 0\n\
\x20SETFRR A,PGM=BETA\n\
\x20SETFRR D\n\
\x20SETFRR R,PGM=BETA\n\
\x20SETFRR P\n\
\x20ATTACHX T\n\
\x20ATTACHX T,ESTAI=BETA,TERM=YES\n\
\x20ATTACHX T,ESTAI=BETA\n\
\x20DETACH T\n\
\x20DETACH T,STAE=YES\n\
\x20DETACH T\n\
\x20CALLRTM ABTERM,TASK=T,COMPCOD=S122\n\
\x20CALLRTM ABTERM,TASK=T,COMPCOD=U99,REASON=0,DUMP=YES,RETRY=NO\n\
\x20CALLRTM ABTERM,TASK=T,COMPCOD=U99\n\
\x20CALLRTM MEMTERM,COMPCOD=U4095\n\
\x20RESMGR ADD,PGM=BETA,TYPE=TASK\n\
\x20RESMGR ADD,PGM=BETA,TYPE=SPACE\n\
\x20RESMGR DELETE,PGM=BETA,TYPE=TASK\n\
\x20RESMGR DELETE,PGM=BETA,TYPE=SPACE\n\
\x20SCHEDULE S\n\
\x20WAIT 255\n\
\x20WAIT 0\n\
\x20WAITT T\n\
\x20POST 3\n\
\x20SETRP RC=4\n\
\x20SETRP RC=16,REMREC=NO,DUMP=NO,RECORD=IGNORE,FRESDWA=NO\n\
\x20SETRP RC=4,RETADDR=L1,COMPCOD=U5,REASON=0\n\
\x20SETRP DUMP=YES,RECORD=YES\n\
\x20SETRP REMREC=YES,DUMP=IGNORE,RECORD=NO,FRESDWA=YES\n\
\x20B L1\n\
\x20IFCODE S000,L1\n\
\x20IFCLUP L1\n\
\x20IFPERC L1\n\
\x20PEND\n\
BETA PROG\n\
\x20PEND\n\
JOB TASK PGM=ALPHA\n\
S SRB PGM=BETA,TASK=JOB\n\
R SRB PGM=BETA\n\
T TASK PGM=BETA\n\
\x20OPER\n\
\x20CANCEL JOB\n\
\x20CANCEL T,AT=100000,DUMP=YES\n\
\x20CANCEL T\n\
\x20END\n\
";

// Cards that may not stand as the second of a deck, each with its card and fault.
static WRONG_CARDS: [(&str, &str); 86] = [
    (" GET ENQ", "2 BadOperand"),
    (" GET ENQ,1000000", "2 BadOperand"),
    (" GET LOCK,1", "2 BadOperand"),
    (" FREE 1,ENQ", "2 BadOperand"),
    (" LINK", "2 BadOperand"),
    (" LINK MAIN,MAIN", "2 BadOperand"),
    (" LINK NONE", "2 UnknownName"),
    (" XCTL 9", "2 BadOperand"),
    (" XCTL NONE", "2 UnknownName"),
    (" ABEND", "2 BadOperand"),
    (" ABEND S000", "2 BadOperand"),
    (" ABEND S0c4", "2 BadOperand"),
    (" ABEND U4096", "2 BadOperand"),
    (" ABEND U1,REASON=", "2 BadOperand"),
    (" ABEND U1,REASON=123456789", "2 BadOperand"),
    (" ABEND U1,DUMP=IGNORE", "2 BadOperand"),
    (" ABEND U1,STEP=YES,STEP=YES", "2 BadOperand"),
    (" ABEND U1,U2", "2 BadOperand"),
    (" ESTAEX", "2 BadOperand"),
    (" ESTAEX CT", "2 BadOperand"),
    (" ESTAEX CT,PGM=NONE", "2 UnknownName"),
    (" ESTAEX CT,PGM=MAIN,TERM", "2 BadOperand"),
    (" ESTAEX CT,PGM=MAIN,CANCEL=MAYBE", "2 BadOperand"),
    (" ESTAEX OV,XCTL=YES", "2 BadOperand"),
    (" ESTAEX 0,1", "2 BadOperand"),
    (" ESTAEX 1", "2 BadOperand"),
    (" SETFRR A", "2 BadOperand"),
    (" SETFRR D,PGM=MAIN", "2 BadOperand"),
    (" SETFRR R,PGM=", "2 BadOperand"),
    (" SETFRR P,1", "2 BadOperand"),
    (" SETFRR X", "2 BadOperand"),
    (" ATTACHX", "2 BadOperand"),
    (" ATTACHX S", "2 UnknownName"),
    (" ATTACHX JOB,TERM=NO", "2 BadOperand"),
    (" ATTACHX JOB,ESTAI=NONE", "2 UnknownName"),
    (" ATTACHX JOB,TERM=YES,ESTAI=9", "2 BadOperand"),
    (" DETACH JOB,STAE=1", "2 BadOperand"),
    (" DETACH MAIN", "2 UnknownName"),
    (" CALLRTM", "2 BadOperand"),
    (" CALLRTM ABTERM,TASK=JOB", "2 BadOperand"),
    (" CALLRTM ABTERM,COMPCOD=U1", "2 BadOperand"),
    (" CALLRTM ABTERM,TASK=S,COMPCOD=U1", "2 UnknownName"),
    (" CALLRTM ABTERM,TASK=JOB,COMPCOD=S000", "2 BadOperand"),
    (" CALLRTM MEMTERM", "2 BadOperand"),
    (" CALLRTM MEMTERM,COMPCOD=U1,DUMP=NO", "2 BadOperand"),
    (" RESMGR ADD,PGM=MAIN", "2 BadOperand"),
    (" RESMGR ADD,PGM=MAIN,TYPE=JOB", "2 BadOperand"),
    (" RESMGR DELETE,TYPE=TASK", "2 BadOperand"),
    (" SCHEDULE JOB", "2 UnknownName"),
    (" SCHEDULE", "2 BadOperand"),
    (" WAIT 256", "2 BadOperand"),
    (" WAIT", "2 BadOperand"),
    (" WAITT S", "2 UnknownName"),
    (" POST -1", "2 BadOperand"),
    (" POST 00000000000", "2 BadOperand"),
    (" SETRP", "2 BadOperand"),
    (" SETRP RC=8", "2 BadOperand"),
    (" SETRP RETADDR=NONE", "2 UnknownLabel"),
    (" SETRP COMPCOD=S000", "2 BadOperand"),
    (" SETRP REASON=G", "2 BadOperand"),
    (" SETRP DUMP=MAYBE", "2 BadOperand"),
    (" SETRP RECORD", "2 BadOperand"),
    (" SETRP FRESDWA=IGNORE", "2 BadOperand"),
    (" SETRP REMREC=IGNORE", "2 BadOperand"),
    (" SETRP RC=0,RC=0", "2 BadOperand"),
    (" B", "2 BadOperand"),
    (" B NONE", "2 UnknownLabel"),
    (" IFCODE S000", "2 BadOperand"),
    (" IFCODE X,L", "2 BadOperand"),
    (" IFCODE S000,NONE", "2 UnknownLabel"),
    (" IFCLUP", "2 BadOperand"),
    (" IFCLUP NONE", "2 UnknownLabel"),
    (" IFPERC 1", "2 BadOperand"),
    (" IFPERC NONE", "2 UnknownLabel"),
    ("LABEL9999 NOP", "2 BadCard"),
    ("LABEL", "2 BadCard"),
    (" NOPE", "2 UnknownOp"),
    ("L PEND", "2 BadCard"),
    (" PROG", "2 BadCard"),
    ("X OPER", "2 BadCard"),
    (" CANCEL JOB", "2 WrongPlace"),
    (" END", "2 WrongPlace"),
    ("L REGION LIMIT=1", "2 BadCard"),
    (" REGION LIMIT=1", "2 WrongPlace"),
    (" TASK PGM=MAIN", "2 BadCard"),
    ("T TASK PGM=MAIN", "2 WrongPlace"),
];

#[test]
fn every_card_is_scanned(rt: HostRuntime) -> Result<(), Fail> {
    is_answered(
        &rt,
        "scan",
        LOOSE_DECK,
        (&[], &[]),
        Status::Fine,
        TIGHT_DECK,
    )?;
    is_answered(
        &rt,
        "scan",
        TIGHT_DECK,
        (&[], &[]),
        Status::Fine,
        TIGHT_DECK,
    )
}

#[test]
fn wrong_cards_are_named(rt: HostRuntime) -> Result<(), Fail> {
    for (card, fault) in &WRONG_CARDS {
        let mut deck = String::from_str(rt.alloc(), "MAIN PROG\n")?;
        deck.push_str(card)?;
        deck.push_str("\n PEND\nJOB TASK PGM=MAIN\nS SRB PGM=MAIN\n END\n")?;
        let mut text = String::from_str(rt.alloc(), "DECK ")?;
        text.push_str(fault)?;
        text.push_str("\n")?;
        is_answered(
            &rt,
            "scan",
            deck.as_str(),
            (&[], &[]),
            Status::Deck,
            text.as_str(),
        )?;
    }
    Ok(())
}

// A card of 80 bytes may stand, and one of 81 may not, also as the last, without a line feed. An input of a byte too
// many is too long, whatever it says.
#[test]
fn lengths_are_kept(rt: HostRuntime) -> Result<(), Fail> {
    let alloc = rt.alloc();
    let mut deck = String::from_str(
        alloc,
        "MAIN PROG\n NOP\n RETURN\n PEND\nJOB TASK PGM=MAIN\n END",
    )?;
    for _ in 0..76 {
        deck.push_str(" ")?;
    }
    let tight = "MAIN PROG\n NOP\n RETURN\n PEND\nJOB TASK PGM=MAIN\n END\n";
    is_answered(&rt, "scan", deck.as_str(), (&[], &[]), Status::Fine, tight)?;
    deck.push_str(" ")?;
    is_answered(
        &rt,
        "scan",
        deck.as_str(),
        (&[], &[]),
        Status::Deck,
        "DECK 6 BadCard\n",
    )?;

    let mut long = String::from_str(alloc, "*\n")?;
    for _ in 0..262_144 {
        long.push_str("****************************************************************")?;
    }
    is_answered(
        &rt,
        "scan",
        long.as_str(),
        (&[], &[]),
        Status::Deck,
        "DECK 2 TooLong\n",
    )
}
