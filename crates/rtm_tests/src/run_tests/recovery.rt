//! Recovery in one task: which routine is entered, and what comes of it.

use super::Row;
use rtm_top::Status;

pub static ROWS: [Row; 15] = [
    Row {
        name: "a program returns",
        deck: "MAIN PROG
 NOP
 RETURN
 PEND
JOB TASK PGM=MAIN
 END
",
        status: Status::Fine,
        trace: "RTMTRACE 1
0 JOB EXEC MAIN.1 RC=0
1 JOB BEGIN S000
2 JOB DONE S000
3 * MEMEND
END ENDED
",
    },
    Row {
        name: "an empty input has no job step",
        deck: "",
        status: Status::Deck,
        trace: "DECK 1 NoJobStep\n",
    },
    Row {
        name: "a card of 80 bytes is read",
        deck: "MAIN PROG
 NOP
 RETURN
 PEND
JOB TASK PGM=MAIN
 END                                                                            ",
        status: Status::Fine,
        trace: "RTMTRACE 1
0 JOB EXEC MAIN.1 RC=0
1 JOB BEGIN S000
2 JOB DONE S000
3 * MEMEND
END ENDED
",
    },
    Row {
        name: "a card of 81 bytes is refused",
        deck: "MAIN PROG
 NOP
 RETURN
 PEND
JOB TASK PGM=MAIN
 END                                                                             ",
        status: Status::Deck,
        trace: "DECK 6 BadCard\n",
    },
    Row {
        name: "an abend that nobody handles",
        deck: "MAIN PROG
 ABEND U4095
 RETURN
 PEND
JOB TASK PGM=MAIN
 END
",
        status: Status::Fine,
        trace: "RTMTRACE 1
0 JOB ERROR MAIN.1 U4095
1 JOB BEGIN U4095
2 JOB DONE U4095
3 * MEMEND
END ENDED
",
    },
    Row {
        name: "no user code is above 4095",
        deck: "MAIN PROG
 ABEND U4096
 RETURN
 PEND
JOB TASK PGM=MAIN
 END
",
        status: Status::Deck,
        trace: "DECK 2 BadOperand\n",
    },
    Row {
        name: "the newer routine percolates and the older retries",
        deck: "MAIN PROG
 ESTAEX CT,PGM=OLD
 ESTAEX CT,PGM=NEW
 ABEND S0C1
AGAIN ABEND S0C4
 PEND
OLD PROG
 SETRP RC=4,RETADDR=AGAIN,REMREC=YES
 PEND
NEW PROG
 SETRP RC=0
 PEND
JOB TASK PGM=MAIN
 END
",
        status: Status::Fine,
        trace: "RTMTRACE 1
0 JOB EXEC MAIN.1 RC=0
1 JOB EXEC MAIN.2 RC=0
2 JOB ERROR MAIN.3 S0C1
3 JOB ENTER ESTAE 1 S0C1
4 JOB EXEC NEW.1 RC=0
5 JOB LEAVE ESTAE 1 PERC
6 JOB ENTER ESTAE 0 S0C1 PERC
7 JOB EXEC OLD.1 RC=0
8 JOB LEAVE ESTAE 0 RETRY MAIN.4
9 JOB ERROR MAIN.4 S0C4
10 JOB BEGIN S0C4
11 JOB DONE S0C4
12 * MEMEND
END ENDED
",
    },
    Row {
        name: "a retry that meets its own error runs to the limit",
        deck: " REGION LIMIT=10
MAIN PROG
 ESTAEX CT,PGM=OLD
 ESTAEX CT,PGM=NEW
AGAIN ABEND S0C1
 ABEND S0C4
 PEND
OLD PROG
 SETRP RC=4,RETADDR=AGAIN,REMREC=NO
 PEND
NEW PROG
 SETRP RC=0
 PEND
JOB TASK PGM=MAIN
 END
",
        status: Status::AtLimit,
        trace: "RTMTRACE 1
0 JOB EXEC MAIN.1 RC=0
1 JOB EXEC MAIN.2 RC=0
2 JOB ERROR MAIN.3 S0C1
3 JOB ENTER ESTAE 1 S0C1
4 JOB EXEC NEW.1 RC=0
5 JOB LEAVE ESTAE 1 PERC
6 JOB ENTER ESTAE 0 S0C1 PERC
7 JOB EXEC OLD.1 RC=0
8 JOB LEAVE ESTAE 0 RETRY MAIN.3
9 JOB ERROR MAIN.3 S0C1
END LIMIT
",
    },
    Row {
        name: "a routine of another request block isn't removed",
        deck: "MAIN PROG
 ESTAEX CT,PGM=REC
 LINK SUB
 RETURN
 PEND
SUB PROG
 ESTAEX 0
 PEND
REC PROG
 NOP
 PEND
JOB TASK PGM=MAIN
 END
",
        status: Status::Fine,
        trace: "RTMTRACE 1
0 JOB EXEC MAIN.1 RC=0
1 JOB EXEC MAIN.2 RC=0
2 JOB EXEC SUB.1 RC=8
3 JOB EXEC SUB.2 RC=0
4 JOB BEGIN S000
5 JOB DONE S000
6 * MEMEND
END ENDED
",
    },
    Row {
        name: "a retry drops the newer request blocks",
        deck: "MAIN PROG
 ESTAEX CT,PGM=REC
 LINK A
OUT NOP
 PEND
A PROG
 LINK B
 PEND
B PROG
 LINK C
 PEND
C PROG
 ABEND S0C4
 PEND
REC PROG
 SETRP RC=4,RETADDR=OUT
 PEND
JOB TASK PGM=MAIN
 END
",
        status: Status::Fine,
        trace: "RTMTRACE 1
0 JOB EXEC MAIN.1 RC=0
1 JOB EXEC MAIN.2 RC=0
2 JOB EXEC A.1 RC=0
3 JOB EXEC B.1 RC=0
4 JOB ERROR C.1 S0C4
5 JOB ENTER ESTAE 0 S0C4
6 JOB EXEC REC.1 RC=0
7 JOB LEAVE ESTAE 0 RETRY MAIN.3
8 JOB EXEC MAIN.3 RC=0
9 JOB BEGIN S000
10 JOB DONE S000
11 * MEMEND
END ENDED
",
    },
    Row {
        name: "XCTL drops the routines that say XCTL=NO",
        deck: "MAIN PROG
 ESTAEX CT,PGM=A
 ESTAEX CT,PGM=B,XCTL=YES
 XCTL SUB
 PEND
SUB PROG
 ABEND U5
 PEND
A PROG
 PEND
B PROG
 PEND
JOB TASK PGM=MAIN
 END
",
        status: Status::Fine,
        trace: "RTMTRACE 1
0 JOB EXEC MAIN.1 RC=0
1 JOB EXEC MAIN.2 RC=0
2 JOB EXEC MAIN.3 RC=0
3 JOB ERROR SUB.1 U0005
4 JOB ENTER ESTAE 1 U0005
5 JOB LEAVE ESTAE 1 PERC
6 JOB BEGIN U0005
7 JOB DONE U0005
8 * MEMEND
END ENDED
",
    },
    Row {
        name: "a routine of a routine retries, and then the routine",
        deck: "MAIN PROG
 ESTAEX CT,PGM=OUTER
 ABEND S0C1
BACK NOP
 PEND
OUTER PROG
 ESTAEX CT,PGM=INNER
 ABEND U7
GO SETRP RC=4,RETADDR=BACK
 PEND
INNER PROG
 SETRP RC=4,RETADDR=GO
 PEND
JOB TASK PGM=MAIN
 END
",
        status: Status::Fine,
        trace: "RTMTRACE 1
0 JOB EXEC MAIN.1 RC=0
1 JOB ERROR MAIN.2 S0C1
2 JOB ENTER ESTAE 0 S0C1
3 JOB EXEC OUTER.1 RC=0
4 JOB ERROR OUTER.2 U0007
5 JOB ENTER ESTAE 3 U0007
6 JOB EXEC INNER.1 RC=0
7 JOB LEAVE ESTAE 3 RETRY OUTER.3
8 JOB EXEC OUTER.3 RC=0
9 JOB LEAVE ESTAE 0 RETRY MAIN.3
10 JOB EXEC MAIN.3 RC=0
11 JOB BEGIN S000
12 JOB DONE S000
13 * MEMEND
END ENDED
",
    },
    Row {
        name: "a routine fails and the older one is entered",
        deck: "MAIN PROG
 ESTAEX CT,PGM=LAST
 ESTAEX CT,PGM=OUTER
 ABEND S0C1
 PEND
OUTER PROG
 ABEND U7
 PEND
LAST PROG
 PEND
JOB TASK PGM=MAIN
 END
",
        status: Status::Fine,
        trace: "RTMTRACE 1
0 JOB EXEC MAIN.1 RC=0
1 JOB EXEC MAIN.2 RC=0
2 JOB ERROR MAIN.3 S0C1
3 JOB ENTER ESTAE 1 S0C1
4 JOB ERROR OUTER.1 U0007
5 JOB LEAVE ESTAE 1 FAIL
6 JOB ENTER ESTAE 0 S0C1 STAF
7 JOB LEAVE ESTAE 0 PERC
8 JOB BEGIN S0C1
9 JOB DONE S0C1
10 * MEMEND
END ENDED
",
    },
    Row {
        name: "a routine changes code and reason, and an older one takes the dump back",
        deck: "MAIN PROG
 ESTAEX CT,PGM=OLD
 ESTAEX CT,PGM=NEW
 ABEND S0C4,REASON=10,DUMP=YES
 PEND
NEW PROG
 SETRP COMPCOD=U99,REASON=AB,DUMP=IGNORE,RECORD=YES
 PEND
OLD PROG
 SETRP DUMP=NO
 PEND
JOB TASK PGM=MAIN
 END
",
        status: Status::Fine,
        trace: "RTMTRACE 1
0 JOB EXEC MAIN.1 RC=0
1 JOB EXEC MAIN.2 RC=0
2 JOB ERROR MAIN.3 S0C4 REASON=00000010
3 JOB ENTER ESTAE 1 S0C4 REASON=00000010
4 JOB EXEC NEW.1 RC=0
5 JOB LEAVE ESTAE 1 PERC LOGREC
6 JOB ENTER ESTAE 0 U0099 REASON=000000AB PERC
7 JOB EXEC OLD.1 RC=0
8 JOB LEAVE ESTAE 0 PERC
9 JOB BEGIN U0099
10 JOB DONE U0099
11 * MEMEND
END ENDED
",
    },
    Row {
        name: "a dump request stands to the end",
        deck: "MAIN PROG
 ESTAEX CT,PGM=OLD
 ESTAEX CT,PGM=NEW
 ABEND S0C4,REASON=10,DUMP=YES
 PEND
NEW PROG
 SETRP COMPCOD=U99,REASON=AB,DUMP=IGNORE,RECORD=YES
 PEND
OLD PROG
 PEND
JOB TASK PGM=MAIN
 END
",
        status: Status::Fine,
        trace: "RTMTRACE 1
0 JOB EXEC MAIN.1 RC=0
1 JOB EXEC MAIN.2 RC=0
2 JOB ERROR MAIN.3 S0C4 REASON=00000010
3 JOB ENTER ESTAE 1 S0C4 REASON=00000010
4 JOB EXEC NEW.1 RC=0
5 JOB LEAVE ESTAE 1 PERC LOGREC
6 JOB ENTER ESTAE 0 U0099 REASON=000000AB PERC
7 JOB LEAVE ESTAE 0 PERC
8 JOB BEGIN U0099 DUMP
9 JOB DONE U0099
10 * MEMEND
END ENDED
",
    },
];
