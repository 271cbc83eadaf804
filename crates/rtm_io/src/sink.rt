//! What takes bytes.

ghost use Rattle.std.specs.Prelude.{◌≡◌, ℕ, ◌<◌, ◌≤◌, List, length, take, Option, IfOk, OnErr};
ghost use Rattle.rtm_io.specs.Faults.{HasCause};
ghost use Rattle.rtm_io.specs.Stream.{Appends};

use crate::Failed;

/// What bytes are written to. These promises are this profile's own.
pub trait Sink {
    /// The bytes taken so far, where the sink tells them.
    ghost written: { Self → Option (List ℕ) };

    /// How many calls of `write` have failed, as a number of 64 bits that stays at its last.
    ghost faults: { Self → ℕ };

    /// Takes bytes from the front of `piece`, and answers how many: 0 only for an empty `piece`.
    fn write(&mut self, piece: &[u8]) -> Result<usize, Failed>
        ensures within { IfOk result (λ n. n ≤ length piece.now) }
        ensures at_least_one { IfOk result (λ n. 0 < length piece.now → 0 < n) }
        ensures taken { IfOk result (λ n.
            Appends (written self.old) (written self.new) (take n piece.now)) }
        ensures failed { OnErr result (written self.new ≡ written self.old) }
        ensures cause { HasCause (faults self.old) (faults self.new) result };
}
