//! Standard output as a sink.

ghost use Rattle.std.specs.Prelude.{◌≡◌, ◌<◌, ◌≤◌, length, IfOk, OnOk, OnErr};
ghost use Rattle.std.specs.Io.KnownBytes.{WriteAppends};
ghost use Rattle.rtm_io.specs.Faults.{HasCause, next_count};

use crate::calls::bytes_moved;
use crate::{Failed, Sink};
use std::io::{Stdout, Write};
use std::marker::Model;

/// Standard output, with no buffer, as a sink that tells none of its bytes (this profile).
///
/// No contract can name the bytes of standard output. So this is over any writer of std, and its
/// contract names the bytes of one that tells them.
#[derive(Debug, Drop)]
pub struct StdSink<W = Stdout> {
    output: W,
    faults: u64,
}

impl<W> Model for StdSink<W> {
    ghost use Rattle.rtm_io.specs.StdStream.{StreamState};

    ghost Value = { StreamState W };

    ghost view = { λ s. record { stream = s.output; faults = s.faults } };
}

impl<W> StdSink<W> {
    /// The sink over that writer. No call of it has failed so far.
    pub fn over(output: W) -> StdSink<W>
        ensures stream { result.stream ≡ output }
        ensures faults { result.faults ≡ 0 }
    {
        StdSink { output, faults: 0 }
    }

    /// How many calls of `write` have failed; at the last `u64` it stays.
    pub fn faults(&self) -> u64
        ensures { result ≡ self.now.faults }
    {
        self.faults
    }
}

impl<W: Write> Sink for StdSink<W> {
    ghost use Rattle.std.specs.Prelude.{None};

    ghost written = { λ _. None };

    ghost faults = { λ s. s.faults };

    /// Makes one write of the system. Each error of it is a fault, an interruption too, and so is a
    /// write that takes nothing of a piece that isn't empty (this profile).
    fn write(&mut self, piece: &[u8]) -> Result<usize, Failed>
        ensures within { IfOk result (λ n. n ≤ length piece.now) }
        ensures at_least_one { IfOk result (λ n. 0 < length piece.now → 0 < n) }
        ensures bytes { WriteAppends (W.contents self.old.stream) (W.contents self.new.stream)
            result piece.now }
        ensures ok { OnOk result (self.new.faults ≡ self.old.faults) }
        ensures err { OnErr result (self.new.faults ≡ next_count self.old.faults) }
        ensures cause { HasCause self.old.faults self.new.faults result }
    {
        let least = piece.len().min(1);
        bytes_moved(self.output.write(piece), least, &mut self.faults)
    }
}
