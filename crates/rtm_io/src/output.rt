//! Writing a whole text to a sink.

ghost use Rattle.std.specs.Prelude.{OnOk, OnErr};
ghost use Rattle.rtm_io.specs.Faults.{HasCause};
ghost use Rattle.rtm_io.specs.Stream.{Appends, AppendsPrefix};

use crate::{Failed, Sink};

/// Writes all of `bytes`, in as many calls as it takes, and in none where there are no bytes. It
/// takes no memory (this profile).
///
/// At `Failed` a prefix of `bytes` stands written, and at least one byte doesn't. A write that failed
/// isn't tried again: its fault is the one that is told.
#[tactic(auto, using(crate::proofs::Adding::Appends_take))]
pub fn write_all<K: Sink>(out: &mut K, bytes: &[u8]) -> Result<(), Failed>
    ensures all { OnOk result (Appends (K.written out.old) (K.written out.new) bytes.now) }
    ensures prefix { OnErr result
        (AppendsPrefix (K.written out.old) (K.written out.new) bytes.now) }
    ensures cause { HasCause (K.faults out.old) (K.faults out.new) result }
{
    let mut done = 0;
    while done < bytes.len() {
        match out.write(&bytes[done..]) {
            Ok(n) => done += n,
            Err(Failed) => return Err(Failed),
        }
    }
    Ok(())
}
