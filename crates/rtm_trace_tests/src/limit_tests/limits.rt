//! Limits, by decks and traces that are too long to be written out, and the largest deck of all.

use super::{Long, Part};

pub static ROWS: [Long; 6] = [
    Long {
        name: "the 33rd request block",
        deck: &[Part::Once(
            "MAIN PROG
 LINK MAIN
 PEND
JOB TASK PGM=MAIN
 END
",
        )],
        trace: &[
            Part::Times(31, "JOB EXEC MAIN.1 RC=0"),
            Part::Once(
                "JOB ERROR MAIN.1 SEE1
JOB BEGIN SEE1
JOB DONE SEE1
* MEMEND",
            ),
        ],
    },
    Long {
        name: "the 65th ESTAE routine",
        deck: &[Part::Once(
            "MAIN PROG
AGAIN ESTAEX CT,PGM=REC
 B AGAIN
 PEND
REC PROG
 PEND
JOB TASK PGM=MAIN
 END
",
        )],
        trace: &[
            Part::Times(
                64,
                "JOB EXEC MAIN.1 RC=0
JOB EXEC MAIN.2 RC=0",
            ),
            Part::Once(
                "JOB ERROR MAIN.1 SEE2
JOB ENTER ESTAE 126 SEE2
JOB LEAVE ESTAE 126 PERC",
            ),
            Part::Numbered(
                63,
                124,
                -2,
                "JOB ENTER ESTAE # SEE2 PERC
JOB LEAVE ESTAE # PERC",
            ),
            Part::Once(
                "JOB BEGIN SEE2
JOB DONE SEE2
* MEMEND",
            ),
        ],
    },
    Long {
        name: "a routine in the 16th bracket",
        deck: &[Part::Once(
            "MAIN PROG
 ESTAEX CT,PGM=REC
 ABEND U1
 PEND
REC PROG
 ESTAEX CT,PGM=REC
 ABEND U1
 PEND
JOB TASK PGM=MAIN
 END
",
        )],
        trace: &[
            Part::Once(
                "JOB EXEC MAIN.1 RC=0
JOB ERROR MAIN.2 U0001",
            ),
            Part::Numbered(
                14,
                0,
                3,
                "JOB ENTER ESTAE # U0001
JOB EXEC REC.1 RC=0
JOB ERROR REC.2 U0001",
            ),
            Part::Once(
                "JOB ENTER ESTAE 42 U0001
JOB ERROR REC.1 SEE3",
            ),
            Part::Numbered(15, 42, -3, "JOB LEAVE ESTAE # FAIL"),
            Part::Once(
                "JOB BEGIN U0001
JOB DONE U0001
* MEMEND",
            ),
        ],
    },
    Long {
        name: "the 17th FRR",
        deck: &[
            Part::Once("MAIN PROG"),
            Part::Times(17, " SETFRR A,PGM=F"),
            Part::Once(
                " PEND
F PROG
 PEND
JOB TASK PGM=MAIN
 END
",
            ),
        ],
        trace: &[
            Part::Numbered(16, 1, 1, "JOB EXEC MAIN.# RC=0"),
            Part::Once(
                "JOB ERROR MAIN.17 S07D
JOB ENTER FRR 15 S07D
JOB LEAVE FRR 15 PERC",
            ),
            Part::Numbered(
                15,
                14,
                -1,
                "JOB ENTER FRR # S07D PERC
JOB LEAVE FRR # PERC",
            ),
            Part::Once(
                "JOB BEGIN S07D
JOB DONE S07D
* MEMEND",
            ),
        ],
    },
    Long {
        name: "the 257th holding",
        deck: &[Part::Once(
            "MAIN PROG
AGAIN GET ENQ,1
 B AGAIN
 PEND
JOB TASK PGM=MAIN
 END
",
        )],
        trace: &[
            Part::Times(
                256,
                "JOB EXEC MAIN.1 RC=0
JOB EXEC MAIN.2 RC=0",
            ),
            Part::Once(
                "JOB ERROR MAIN.1 SEE4
JOB BEGIN SEE4",
            ),
            Part::Times(256, "JOB RELEASE ENQ 1 JOB"),
            Part::Once(
                "JOB DONE SEE4
* MEMEND",
            ),
        ],
    },
    Long {
        name: "the 65th resource manager, of tasks and of the space",
        deck: &[
            Part::Once("MAIN PROG"),
            Part::Times(
                32,
                " RESMGR ADD,PGM=M,TYPE=TASK
 RESMGR ADD,PGM=M,TYPE=SPACE",
            ),
            Part::Once(
                " RESMGR ADD,PGM=M,TYPE=TASK
 PEND
M PROG
 PEND
JOB TASK PGM=MAIN
 END
",
            ),
        ],
        trace: &[
            Part::Numbered(64, 1, 1, "JOB EXEC MAIN.# RC=0"),
            Part::Once(
                "JOB ERROR MAIN.65 SEE5
JOB BEGIN SEE5",
            ),
            Part::Numbered(
                32,
                62,
                -2,
                "JOB ENTER MGR # SEE5
JOB LEAVE MGR # OVER",
            ),
            Part::Once("JOB DONE SEE5"),
            Part::Numbered(
                32,
                63,
                -2,
                "* ENTER MGR # SEE5
* LEAVE MGR # OVER",
            ),
            Part::Once("* MEMEND"),
        ],
    },
];

/// Sixty tasks, each of which meets and retries forty errors in a called program, holds what it got there, and then
/// ends by an error of its own.
pub static SIXTY_TASKS: [Part; 10] = [
    Part::Once(
        " REGION LIMIT=100000
MAIN PROG
 GET ENQ,0",
    ),
    Part::Numbered(60, 1, 1, " ATTACHX T#,ESTAI=WATCH"),
    Part::Numbered(60, 1, 1, " WAITT T#"),
    Part::Once(
        " PEND
WORK PROG
 GET STOR,1",
    ),
    Part::Numbered(
        40,
        1,
        1,
        " ESTAEX CT,PGM=KEEP#
 LINK SUB
BACK# NOP",
    ),
    Part::Once(
        " ABEND U2
 PEND
SUB PROG
 GET DSN,2
 SETFRR A,PGM=PASS
 ABEND S0C4
 PEND",
    ),
    Part::Numbered(
        40,
        1,
        1,
        "KEEP# PROG
 SETRP RC=4,RETADDR=BACK#,REMREC=YES
 PEND",
    ),
    Part::Once(
        "PASS PROG
 PEND
WATCH PROG
 PEND
JOB TASK PGM=MAIN",
    ),
    Part::Numbered(60, 1, 1, "T# TASK PGM=WORK"),
    Part::Once(" END"),
];
