//! What gives bytes.

ghost use Rattle.std.specs.Prelude.{◌≡◌, ℕ, ◌<◌, ◌≤◌, List, length, take, Option, IfOk, OnErr};
ghost use Rattle.rtm_io.specs.Faults.{HasCause};
ghost use Rattle.rtm_io.specs.Stream.{Gives, IsAtEnd};

use crate::Failed;

/// What bytes are read from. These promises are this profile's own.
pub trait Source {
    /// The bytes still to come, where the source tells them.
    ghost left: { Self → Option (List ℕ) };

    /// How many calls of `read` have failed, as a number of 64 bits that stays at its last.
    ghost faults: { Self → ℕ };

    /// Puts the next bytes into the front of `buf`, and answers how many: 0 only at the end, or for
    /// an empty `buf`.
    fn read(&mut self, buf: &mut [u8]) -> Result<usize, Failed>
        ensures within { IfOk result (λ n. n ≤ length buf.old) }
        ensures given { IfOk result (λ n. Gives (left self.old) (left self.new) (take n buf.new)) }
        ensures end { IfOk result (λ n. n ≡ 0 → 0 < length buf.old → IsAtEnd (left self.old)) }
        ensures failed { OnErr result (left self.new ≡ left self.old) }
        ensures cause { HasCause (faults self.old) (faults self.new) result };
}
