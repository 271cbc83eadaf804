//! Reading a source to its end.

ghost use Rattle.std.specs.Prelude.{◌≡◌, ◌+◌, ◌-◌, ◌^◌, ◌==◌, ◌<◌, ◌≤◌, ◌++◌, length, take, count_by, vec_len, IfOk, IfErr, OnOk, OnErr};
ghost use Rattle.rtm_io.specs.Stream.{Gives, TakesAtMost, IsAtEnd};
ghost use Rattle.rtm_io.specs.Input.{GivesAll, IsInFault, IsReadFault};

use crate::{Failed, Source};
use std::alloc::{AllocError, Global};

/// Why `read_all` gives no bytes (this profile).
#[derive(Clone, Copy, Debug, PartialEq, Eq)]
pub enum InFault {
    /// Memory was refused.
    Memory,
    /// A read failed.
    Read,
    /// More bytes came than the limit, and the first past it stands in line `line`: from 1, at
    /// most one more than the limit. A line feed, byte 10, ends a line.
    TooLong { line: u32 },
}

// How many bytes a single read asks for, at most.
const CHUNK: usize = 65536;

/// Gives all bytes to the end of the source, where they are no more than `limit`. Where there are
/// more, it takes one past the limit, and none after it. The limit leaves room for the number of a
/// line in 32 bits (this profile).
///
/// At `Memory` and `Read` the bytes taken so far are lost. They are a front of those that were left.
/// A read that failed isn't tried again: its fault is the one that is told.
pub fn read_all<S: Source>(alloc: Global, src: &mut S, limit: usize) -> Result<Vec<u8>, InFault>
    requires { limit ≤ 2 ^ 32 - 2 }
    ensures all { IfOk result (λ bytes.
        GivesAll limit (S.left src.old) (S.left src.new) bytes.items) }
    ensures counted { OnOk result (S.faults src.new ≡ S.faults src.old) }
    ensures fault { IfErr result (IsInFault limit (S.left src.old) (S.left src.new)
        (S.faults src.old) (S.faults src.new)) }

    // Whatever the answer:
    ensures front { TakesAtMost (limit + 1) (S.left src.old) (S.left src.new) }
    ensures later { S.faults src.old ≤ S.faults src.new }
{
    let Ok(mut chunk) = zeros(alloc, CHUNK) else {
        return Err(InFault::Memory);
    };
    let mut bytes = Vec::new(alloc);
    while bytes.len() <= limit {
        let most = limit + 1 - bytes.len();
        match read_on(src, &mut chunk, most, &mut bytes) {
            Ok(0) => return Ok(bytes),
            Ok(_) => {}
            Err(fault) => return Err(fault),
        }
    }
    let line = line_after(&bytes[..limit]);
    Err(InFault::TooLong { line })
}

// A function of its own, so that no proof computes with so many zeros.
fn zeros(alloc: Global, len: usize) -> Result<Vec<u8>, AllocError>
    ensures { IfOk result (λ zeros. vec_len zeros ≡ len) }
{
    vec![in alloc; 0u8; len]
}

// Makes one read of at most `most` bytes, adds to `bytes` those that come, and answers how many.
fn read_on<S: Source>(
    src: &mut S,
    chunk: &mut [u8],
    most: usize,
    bytes: &mut Vec<u8>,
) -> Result<usize, InFault>
    requires some { 0 < most }
    requires room { 0 < length chunk.old }
    ensures within { IfOk result (λ n. n ≤ most) }
    ensures bytes { IfOk result (λ n. bytes.new.items ≡ bytes.old.items ++ take n chunk.new) }
    ensures len { IfOk result (λ n. vec_len bytes.new ≡ vec_len bytes.old + n) }
    ensures given { IfOk result (λ n. Gives (S.left src.old) (S.left src.new) (take n chunk.new)) }
    ensures end { IfOk result (λ n. n ≡ 0 → IsAtEnd (S.left src.old)) }
    ensures counted { OnOk result (S.faults src.new ≡ S.faults src.old) }
    ensures fault { IfErr result (IsReadFault (S.faults src.old) (S.faults src.new)) }
    ensures front { OnErr result (TakesAtMost most (S.left src.old) (S.left src.new)) }
    ensures later { S.faults src.old ≤ S.faults src.new }
{
    let room = chunk.len().min(most);
    match src.read(&mut chunk[..room]) {
        Ok(n) => match bytes.extend_from_slice(&chunk[..n]) {
            Ok(()) => Ok(n),
            Err(_) => Err(InFault::Memory),
        },
        Err(Failed) => Err(InFault::Read),
    }
}

// The line of the byte that follows these.
fn line_after(front: &[u8]) -> u32
    requires { length front.now ≤ 2 ^ 32 - 2 }
    ensures { result ≡ 1 + count_by (λ byte. byte == 10) front.now }
{
    1 + front.iter().filter(|byte| **byte == b'\n').count() as u32
}
