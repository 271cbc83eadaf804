//! A sink in memory.

ghost use Rattle.std.specs.Prelude.{◌≡◌, ◌⊎◌, ◌<◌, ◌≤◌, ◌↔◌, ◌+◌, ◌++◌, length, take, min, vec_len, vec_capacity, Contains, IsErr, IsTrue, IfOk, OnErr};
ghost use Rattle.rtm_io.specs.Faults.{HasCause};

use crate::calls::is_listed;
use crate::{Failed, Sink};
use std::alloc::Global;
use std::marker::Model;

/// Why no `MemSink` was made (this profile).
#[derive(Clone, Copy, Debug, PartialEq, Eq)]
pub enum RoomFault {
    /// Memory was refused.
    Memory,
}

/// A sink in memory with a stated room, of which stated calls fail (this profile).
#[derive(Debug, Drop)]
pub struct MemSink {
    bytes: Vec<u8>,
    room: usize,
    fail: Vec<u32>,
    calls: u64,
    faults: u64,
}

impl Model for MemSink {
    ghost use Rattle.std.specs.Prelude.{◌≤◌, vec_len, vec_capacity};
    ghost use Rattle.rtm_io.specs.MemSink.{SinkState};

    ghost Value = { SinkState };

    ghost view = { λ s. record {
      written = s.bytes.items;
      room = s.room;
      fail = s.fail.items;
      calls = s.calls;
      faults = s.faults;
    } };

    ghost invariant = { λ s. (vec_len s.bytes ≤ s.room) × (s.room ≤ vec_capacity s.bytes) };
}

impl MemSink {
    ghost use Rattle.rtm_io.specs.MemSink.{sink_of};

    /// A sink with room for `room` bytes, whose memory is taken now. The calls of `write` whose
    /// numbers are in `fail` will fail; the first call has number 0.
    pub fn new(alloc: Global, room: usize, fail: Vec<u32>) -> Result<MemSink, RoomFault>
        ensures { IfOk result (λ sink. sink ≡ sink_of room fail.items) }
    {
        match Vec::with_capacity(alloc, room) {
            Ok(bytes) => Ok(MemSink {
                bytes,
                room,
                fail,
                calls: 0,
                faults: 0,
            }),
            Err(_) => Err(RoomFault::Memory),
        }
    }

    /// The bytes taken so far.
    pub fn bytes(&self) -> &[u8]
        ensures { result.now ≡ self.now.written }
    {
        &self.bytes
    }

    /// How many calls of `write` have failed; at the last `u64` it stays.
    pub fn faults(&self) -> u64
        ensures { result ≡ self.now.faults }
    {
        self.faults
    }
}

impl Sink for MemSink {
    ghost use Rattle.std.specs.Prelude.{Some};
    ghost use Rattle.rtm_io.specs.MemSink.{room_left, after_write, after_failed_write};

    ghost written = { λ s. Some s.written };

    ghost faults = { λ s. s.faults };

    /// Takes as many bytes as there is room for, and no memory. It fails where the number of the
    /// call is one of those that fail, and where there is no room for a piece that isn't empty.
    fn write(&mut self, piece: &[u8]) -> Result<usize, Failed>
        ensures fails { IsErr result ↔ (Contains self.old.fail self.old.calls
            ⊎ ((0 < length piece.now) × (room_left self.old ≡ 0))) }
        ensures count { IfOk result (λ n. n ≡ min (length piece.now) (room_left self.old)) }
        ensures ok { IfOk result (λ n. self.new ≡ after_write self.old (take n piece.now)) }
        ensures err { OnErr result (self.new ≡ after_failed_write self.old) }
        ensures cause { HasCause self.old.faults self.new.faults result }
    {
        let call = self.calls;
        self.calls = call.saturating_add(1);
        let room_left = self.room - self.bytes.len();
        if is_refused(&self.fail, call, room_left, piece) {
            self.faults = self.faults.saturating_add(1);
            return Err(Failed);
        }
        let n = piece.len().min(room_left);
        put(&mut self.bytes, &piece[..n]);
        Ok(n)
    }
}

// Whether a write fails: by the number of its call, or for want of room.
fn is_refused(fail: &[u32], call: u64, room_left: usize, piece: &[u8]) -> bool
    ensures { IsTrue result ↔ (Contains fail.now call
        ⊎ ((0 < length piece.now) × (room_left ≡ 0))) }
{
    is_listed(fail, call) || (room_left == 0 && !piece.is_empty())
}

// Adds bytes for which there is room, which takes no memory.
fn put(bytes: &mut Vec<u8>, piece: &[u8])
    requires { vec_len bytes.old + length piece.now ≤ vec_capacity bytes.old }
    ensures items { bytes.new.items ≡ bytes.old.items ++ piece.now }
    ensures capacity { vec_capacity bytes.old ≤ vec_capacity bytes.new }
{
    bytes.extend_from_slice(piece).unwrap();
}
