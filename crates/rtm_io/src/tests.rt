//! Sources and sinks that fail, or that give and take little at a time.

ghost use Rattle.std.specs.Prelude.{◌≤◌, None, Some, IfOk};

use super::*;
use std::alloc::{AllocError, Global};
use std::io;
use std::process::Abort;
use std::test::Fail;

// A limit that no input below passes.
const AMPLE: usize = 1 << 20;

// Gives two bytes a read, at most, and tells none.
#[derive(Drop)]
struct Trickle(MemSource);

impl Source for Trickle {
    ghost left = { λ _. None };

    ghost faults = { λ s. s.0.faults };

    fn read(&mut self, buf: &mut [u8]) -> Result<usize, Failed> {
        let n = buf.len().min(2);
        self.0.read(&mut buf[..n])
    }
}

// Takes two bytes a write, at most.
#[derive(Drop)]
struct Narrow(MemSink);

impl Sink for Narrow {
    ghost written = { λ s. Some s.0.written };

    ghost faults = { λ s. s.0.faults };

    fn write(&mut self, piece: &[u8]) -> Result<usize, Failed> {
        let n = piece.len().min(2);
        self.0.write(&piece[..n])
    }
}

// Gives two bytes a read, at most, and knows how many each of its first eight reads gave.
#[derive(Drop)]
struct WatchedSource {
    source: MemSource,
    given: [usize; 8],
    calls: usize,
}

impl Source for WatchedSource {
    ghost left = { λ _. None };

    ghost faults = { λ s. s.source.faults };

    fn read(&mut self, buf: &mut [u8]) -> Result<usize, Failed> {
        let most = buf.len().min(2);
        let answer = self.source.read(&mut buf[..most]);
        if let (Some(place), Ok(n)) = (self.given.get_mut(self.calls), answer) {
            *place = n;
        }
        self.calls = self.calls.saturating_add(1);
        answer
    }
}

// Takes two bytes a write, at most, and knows how long each of its first eight pieces was.
#[derive(Drop)]
struct WatchedSink {
    sink: MemSink,
    pieces: [usize; 8],
    calls: usize,
}

impl Sink for WatchedSink {
    ghost written = { λ s. Some s.sink.written };

    ghost faults = { λ s. s.sink.faults };

    fn write(&mut self, piece: &[u8]) -> Result<usize, Failed> {
        if let Some(place) = self.pieces.get_mut(self.calls) {
            *place = piece.len();
        }
        self.calls = self.calls.saturating_add(1);
        let n = piece.len().min(2);
        self.sink.write(&piece[..n])
    }
}

// A stream of std whose first call is interrupted, the second moves two bytes, and the rest none.
#[derive(Drop)]
struct Stutter(u32);

impl Stutter {
    fn answer(&mut self, len: usize) -> io::Result<usize>
        ensures { IfOk result (λ n. n ≤ len) }
    {
        self.0 = self.0.saturating_add(1);
        match self.0 {
            1 => Err(io::ErrorKind::Interrupted.into()),
            2 => Ok(len.min(2)),
            _ => Ok(0),
        }
    }
}

impl io::Read for Stutter {
    fn read(&mut self, buf: &mut [u8]) -> io::Result<usize> {
        self.answer(buf.len())
    }
}

impl io::Write for Stutter {
    fn write(&mut self, buf: &[u8]) -> io::Result<usize> {
        self.answer(buf.len())
    }

    fn flush(&mut self) -> io::Result<()> {
        Ok(())
    }
}

fn source(alloc: Global, bytes: &[u8], fail: &[u32]) -> Result<MemSource, AllocError> {
    Ok(MemSource::new(bytes.to_vec(alloc)?, fail.to_vec(alloc)?))
}

fn sink(alloc: Global, room: usize, fail: &[u32]) -> Result<MemSink, Fail> {
    let sink = MemSink::new(alloc, room, fail.to_vec(alloc)?);
    Ok(sink.ok().ok_or("room")?)
}

// Bytes, a limit, the line of the first byte past it, and how many bytes are left then.
type Reading = (&'static [u8], u16, Option<u32>, usize);

fn reads_as_told<S: Source>(
    rt: &impl Abort,
    alloc: Global,
    src: &mut S,
    (bytes, limit, line, _): Reading,
) {
    let answer = read_all(alloc, src, usize::from(limit));
    match (answer, line) {
        (Ok(all), None) => assert_eq!(rt; all.as_slice(), bytes),
        (Err(fault), Some(line)) => assert_eq!(rt; fault, InFault::TooLong { line }),
        _ => assert!(rt; false, "within {limit}"),
    }
}

#[test]
fn reads_within_a_limit(rt: HostRuntime) -> Result<(), Fail> {
    let alloc = rt.alloc();
    let table: [Reading; 9] = [
        (b"", 0, None, 0),
        (b"", 5, None, 0),
        (b"ab\nc\n", 5, None, 0),
        (b"ab\nc\n", 6, None, 0),
        (b"ab\nc\n", 4, Some(2), 0),
        (b"ab\nc\n", 3, Some(2), 1),
        (b"ab\nc\n", 2, Some(1), 2),
        (b"\n\n\n", 2, Some(3), 0),
        (b"\n\n\n", 0, Some(1), 2),
    ];
    for row in table {
        let mut whole = source(alloc, row.0, &[])?;
        reads_as_told(&rt, alloc, &mut whole, row);
        assert_eq!(rt; whole.bytes_left().len(), row.3);
        let mut trickle = Trickle(source(alloc, row.0, &[])?);
        reads_as_told(&rt, alloc, &mut trickle, row);
        assert_eq!(rt; trickle.0.bytes_left().len(), row.3);
    }
    Ok(())
}

// Five bytes, and the read with this number fails, when so many are left.
fn fails_at(rt: &impl Abort, alloc: Global, call: u32, left: usize) -> Result<(), AllocError> {
    let mut trickle = Trickle(source(alloc, b"12345", &[call])?);
    let answer = read_all(alloc, &mut trickle, AMPLE);
    assert_eq!(rt; answer.err(), Some(InFault::Read));
    assert_eq!(rt; trickle.0.bytes_left().len(), left, "at call {call}");
    assert_eq!(rt; trickle.0.faults(), 1);
    Ok(())
}

// Three reads give bytes, a fourth finds the end, and there is no fifth.
#[test]
fn a_failing_read_is_told(rt: HostRuntime) -> Result<(), Fail> {
    let alloc = rt.alloc();
    for (call, left) in [(0, 5), (1, 3), (2, 1), (3, 0)] {
        fails_at(&rt, alloc, call, left)?;
    }
    let mut trickle = Trickle(source(alloc, b"12345", &[4])?);
    assert!(rt; read_all(alloc, &mut trickle, AMPLE).is_ok());
    assert_eq!(rt; trickle.0.faults(), 0);
    Ok(())
}

// Bytes, a limit, and how many bytes each read gives, two at most.
type Reads = (&'static [u8], usize, &'static [usize]);

// The last read alone gives none, and nothing is read after it, nor after a byte past the limit.
#[test]
fn each_read_but_the_last_gives_a_byte(rt: HostRuntime) -> Result<(), Fail> {
    let table: [Reads; 7] = [
        (b"", 5, &[0]),
        (b"", 0, &[0]),
        (b"1", 5, &[1, 0]),
        (b"12345", 5, &[2, 2, 1, 0]),
        (b"1234", 5, &[2, 2, 0]),
        (b"12345", 4, &[2, 2, 1]),
        (b"12345", 3, &[2, 2]),
    ];
    for (bytes, limit, given) in table {
        let mut src = WatchedSource {
            source: source(rt.alloc(), bytes, &[])?,
            given: [0; 8],
            calls: 0,
        };
        let is_whole = read_all(rt.alloc(), &mut src, limit).is_ok();
        assert_eq!(rt; is_whole, bytes.len() <= limit);
        assert_eq!(rt; src.calls, given.len(), "within {limit}");
        assert!(rt; src.given.starts_with(given), "within {limit}");
    }
    Ok(())
}

// Reads a source of so many bytes.
fn reads_long(rt: &impl Abort, alloc: Global, len: u32) -> Result<(), Fail> {
    let long = vec![in alloc; b'x'; len as usize]?;
    let mut src = source(alloc, &long, &[])?;
    let bytes = read_all(alloc, &mut src, AMPLE).ok().ok_or("whole")?;
    assert_eq!(rt; bytes.as_slice(), long.as_slice());
    Ok(())
}

// About as many bytes as one read brings, and as two do, and more.
#[test]
fn a_long_input_is_read_whole(rt: HostRuntime) -> Result<(), Fail> {
    for len in [65_535, 65_536, 65_537, 131_072, 150_000] {
        reads_long(&rt, rt.alloc(), len)?;
    }
    Ok(())
}

// A room, the numbers of the calls that fail, and what stands written of `12345`, two bytes a call.
type Writing = (usize, &'static [u32], &'static [u8]);

fn writes_as_told(
    rt: &impl Abort,
    alloc: Global,
    (room, fail, written): Writing,
) -> Result<(), Fail> {
    let mut narrow = Narrow(sink(alloc, room, fail)?);
    let is_whole = write_all(&mut narrow, b"12345").is_ok();
    assert_eq!(rt; is_whole, written.len() == 5);
    assert_eq!(rt; narrow.0.bytes(), written, "room {room}");
    assert_eq!(rt; narrow.0.faults() == 0, is_whole);
    Ok(())
}

#[test]
fn writes_all_or_a_prefix(rt: HostRuntime) -> Result<(), Fail> {
    let table: [Writing; 9] = [
        (6, &[], b"12345"),
        (5, &[], b"12345"),
        (4, &[], b"1234"),
        (3, &[], b"123"),
        (0, &[], b""),
        (5, &[0], b""),
        (5, &[1], b"12"),
        (5, &[2], b"1234"),
        (5, &[3], b"12345"),
    ];
    for row in table {
        writes_as_told(&rt, rt.alloc(), row)?;
    }
    Ok(())
}

// Each call is given all that isn't written yet, and no bytes are written by no call.
#[test]
fn no_empty_piece_is_written(rt: HostRuntime) -> Result<(), Fail> {
    let table: [(&[u8], &[usize]); 4] = [
        (b"", &[]),
        (b"1", &[1]),
        (b"1234", &[4, 2]),
        (b"12345", &[5, 3, 1]),
    ];
    for (bytes, pieces) in table {
        let mut out = WatchedSink {
            sink: sink(rt.alloc(), bytes.len(), &[])?,
            pieces: [0; 8],
            calls: 0,
        };
        assert_eq!(rt; write_all(&mut out, bytes), Ok(()));
        assert_eq!(rt; out.calls, pieces.len());
        assert!(rt; out.pieces.starts_with(pieces));
    }
    Ok(())
}

// The second call fails, and the fourth finds no room.
#[test]
fn writes_into_memory(rt: HostRuntime) -> Result<(), Fail> {
    let mut sink = sink(rt.alloc(), 3, &[1])?;
    let table: [(&[u8], Result<usize, Failed>); 5] = [
        (b"ab", Ok(2)),
        (b"", Err(Failed)),
        (b"cd", Ok(1)),
        (b"d", Err(Failed)),
        (b"", Ok(0)),
    ];
    for (piece, answer) in table {
        assert_eq!(rt; sink.write(piece), answer);
    }
    assert_eq!(rt; sink.bytes(), b"abc".as_slice());
    assert_eq!(rt; sink.faults(), 2);
    Ok(())
}

// The second call fails, and leaves the buffer as it was.
#[test]
fn reads_from_memory(rt: HostRuntime) -> Result<(), Fail> {
    let mut src = source(rt.alloc(), b"abc", &[1])?;
    let mut buf = [0; 2];
    let table: [(Result<usize, Failed>, [u8; 2]); 4] = [
        (Ok(2), *b"ab"),
        (Err(Failed), *b"ab"),
        (Ok(1), *b"cb"),
        (Ok(0), *b"cb"),
    ];
    for (answer, after) in table {
        assert_eq!(rt; src.read(&mut buf), answer);
        assert_eq!(rt; buf, after);
    }
    assert_eq!(rt; src.faults(), 1);
    Ok(())
}

#[test]
fn standard_input_is_read_to_its_end(rt: HostRuntime) {
    let mut src = StdSource::over(rt.stdin());
    assert!(rt; read_all(rt.alloc(), &mut src, AMPLE).is_ok());
    assert_eq!(rt; src.faults(), 0);
}

#[test]
fn standard_output_takes_a_text(rt: HostRuntime) {
    let mut sink = StdSink::over(rt.stdout());
    assert_eq!(rt; write_all(&mut sink, b"a line\n"), Ok(()));
    assert_eq!(rt; sink.faults(), 0);
}

// An interruption is told at once, and so is a write that takes nothing. At the end a read gives 0.
#[test]
fn each_error_of_the_system_is_told(rt: HostRuntime) {
    let mut src = StdSource::over(Stutter(0));
    let mut buf = [0; 3];
    for (answer, faults) in [(Err(Failed), 1), (Ok(2), 1), (Ok(0), 1)] {
        assert_eq!(rt; src.read(&mut buf), answer);
        assert_eq!(rt; src.faults(), faults);
    }
    let mut sink = StdSink::over(Stutter(0));
    for (answer, faults) in [(Err(Failed), 1), (Ok(2), 1), (Err(Failed), 2)] {
        assert_eq!(rt; sink.write(b"abc"), answer);
        assert_eq!(rt; sink.faults(), faults);
    }
    assert_eq!(rt; sink.write(b""), Ok(0));
}
