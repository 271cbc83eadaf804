//! A source in memory.

ghost use Rattle.std.specs.Prelude.{◌≡◌, ◌↔◌, ◌++◌, length, take, drop, min, Contains, IsErr, IfOk, OnErr};
ghost use Rattle.rtm_io.specs.Faults.{HasCause};

use crate::calls::is_listed;
use crate::{Failed, Source};
use std::marker::Model;

/// Bytes in memory as a source, of which stated calls fail (this profile).
#[derive(Debug, Drop)]
pub struct MemSource {
    bytes: Vec<u8>,
    // How many of them were given.
    given: usize,
    fail: Vec<u32>,
    calls: u64,
    faults: u64,
}

impl Model for MemSource {
    ghost use Rattle.std.specs.Prelude.{◌≤◌, drop, vec_len};
    ghost use Rattle.rtm_io.specs.MemSource.{SourceState};

    ghost Value = { SourceState };

    ghost view = { λ s. record {
      left = drop s.given s.bytes.items;
      fail = s.fail.items;
      calls = s.calls;
      faults = s.faults;
    } };

    ghost invariant = { λ s. s.given ≤ vec_len s.bytes };
}

impl MemSource {
    ghost use Rattle.rtm_io.specs.MemSource.{source_of};

    /// A source of `bytes`. The calls of `read` whose numbers are in `fail` will fail; the first
    /// call has number 0.
    pub fn new(bytes: Vec<u8>, fail: Vec<u32>) -> MemSource
        ensures { result ≡ source_of bytes.items fail.items }
    {
        MemSource {
            bytes,
            given: 0,
            fail,
            calls: 0,
            faults: 0,
        }
    }

    /// The bytes still to come.
    pub fn bytes_left(&self) -> &[u8]
        ensures { result.now ≡ self.now.left }
    {
        &self.bytes[self.given..]
    }

    /// How many calls of `read` have failed; at the last `u64` it stays.
    pub fn faults(&self) -> u64
        ensures { result ≡ self.now.faults }
    {
        self.faults
    }
}

impl Source for MemSource {
    ghost use Rattle.std.specs.Prelude.{Some};
    ghost use Rattle.rtm_io.specs.MemSource.{after_read, after_failed_read};

    ghost left = { λ s. Some s.left };

    ghost faults = { λ s. s.faults };

    /// Gives as many bytes as are left and fit, unless the number of the call is one of those that
    /// fail.
    fn read(&mut self, buf: &mut [u8]) -> Result<usize, Failed>
        ensures fails { IsErr result ↔ Contains self.old.fail self.old.calls }
        ensures count { IfOk result (λ n. n ≡ min (length self.old.left) (length buf.old)) }
        ensures copied { IfOk result (λ n. buf.new ≡ take n self.old.left ++ drop n buf.old) }
        ensures ok { IfOk result (λ n. self.new ≡ after_read self.old n) }
        ensures err { OnErr result (self.new ≡ after_failed_read self.old) }
        ensures buffer_kept { OnErr result (buf.new ≡ buf.old) }
        ensures cause { HasCause self.old.faults self.new.faults result }
    {
        let call = self.calls;
        self.calls = call.saturating_add(1);
        if is_listed(&self.fail, call) {
            self.faults = self.faults.saturating_add(1);
            return Err(Failed);
        }
        let n = copy_front(&self.bytes[self.given..], buf);
        self.given += n;
        Ok(n)
    }
}

// Copies as many bytes as both have, and answers how many.
fn copy_front(from: &[u8], to: &mut [u8]) -> usize
    ensures count { result ≡ min (length from.now) (length to.old) }
    ensures copied { to.new ≡ take result from.now ++ drop result to.old }
{
    let n = from.len().min(to.len());
    to[..n].copy_from_slice(&from[..n]);
    n
}
