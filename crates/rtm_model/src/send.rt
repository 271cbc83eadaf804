//! Each type may move to another thread.

use crate::{
    Abort, Block, Class, End, Entry, ErrorRecord, Fate, Full, Holding, Kind, Manager1, Mark,
    Outcome, Place, RecordFlags, Reg, Res, Surroundings, Verdict, What,
};

fn asks_send<T: Send>() {}

/// Nothing but the question, which the compiler answers: may each type move to another thread?
pub fn types_are_send() {
    asks_send::<Abort>();
    asks_send::<Block>();
    asks_send::<Class>();
    asks_send::<End>();
    asks_send::<Entry>();
    asks_send::<ErrorRecord>();
    asks_send::<Fate>();
    asks_send::<Full>();
    asks_send::<Holding>();
    asks_send::<Kind>();
    asks_send::<Manager1>();
    asks_send::<Mark>();
    asks_send::<Outcome>();
    asks_send::<Place>();
    asks_send::<RecordFlags>();
    asks_send::<Reg>();
    asks_send::<Res>();
    asks_send::<Surroundings>();
    asks_send::<Verdict>();
    asks_send::<What>();
}
