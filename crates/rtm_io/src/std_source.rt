//! Standard input as a source.

ghost use Rattle.std.specs.Prelude.{◌≡◌, ◌≤◌, length, IfOk, OnOk, OnErr};
ghost use Rattle.std.specs.Io.KnownBytes.{ReadConsumes};
ghost use Rattle.rtm_io.specs.Faults.{HasCause, next_count};

use crate::calls::bytes_moved;
use crate::{Failed, Source};
use std::io::{Read, Stdin};
use std::marker::Model;

/// Standard input, as a source that tells none of its bytes (this profile).
///
/// No contract can name the bytes of standard input. So this is over any reader of std, and its
/// contract names the bytes of one that tells them.
#[derive(Debug, Drop)]
pub struct StdSource<R = Stdin> {
    input: R,
    faults: u64,
}

impl<R> Model for StdSource<R> {
    ghost use Rattle.rtm_io.specs.StdStream.{StreamState};

    ghost Value = { StreamState R };

    ghost view = { λ s. record { stream = s.input; faults = s.faults } };
}

impl<R> StdSource<R> {
    /// The source over that reader. No call of it has failed so far.
    pub fn over(input: R) -> StdSource<R>
        ensures stream { result.stream ≡ input }
        ensures faults { result.faults ≡ 0 }
    {
        StdSource { input, faults: 0 }
    }

    /// How many calls of `read` have failed; at the last `u64` it stays.
    pub fn faults(&self) -> u64
        ensures { result ≡ self.now.faults }
    {
        self.faults
    }
}

impl<R: Read> Source for StdSource<R> {
    ghost use Rattle.std.specs.Prelude.{None};

    ghost left = { λ _. None };

    ghost faults = { λ s. s.faults };

    /// Makes one read of the system. Each error of it is a fault, an interruption too (this
    /// profile).
    fn read(&mut self, buf: &mut [u8]) -> Result<usize, Failed>
        ensures within { IfOk result (λ n. n ≤ length buf.old) }
        ensures bytes { ReadConsumes (R.remaining self.old.stream) (R.remaining self.new.stream)
            result buf.new }
        ensures ok { OnOk result (self.new.faults ≡ self.old.faults) }
        ensures err { OnErr result (self.new.faults ≡ next_count self.old.faults) }
        ensures cause { HasCause self.old.faults self.new.faults result }
    {
        bytes_moved(self.input.read(buf), 0, &mut self.faults)
    }
}
