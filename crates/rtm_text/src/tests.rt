//! Text that is read and written.

use crate::*;
use std::alloc::{AllocError, AllocFailed};
use std::test::Fail;

// A number, its decimal and its hexadecimal digits.
type Row = (u32, &'static [u8], &'static [u8]);

fn decimal(rt: HostRuntime, number: u32) -> Result<Vec<u8>, NoMemory> {
    let mut out = Vec::new(rt.alloc());
    push_decimal(&mut out, u64::from(number))?;
    Ok(out)
}

fn hexadecimal(rt: HostRuntime, number: u32) -> Result<Vec<u8>, NoMemory> {
    let mut out = Vec::new(rt.alloc());
    push_hexadecimal(&mut out, number)?;
    Ok(out)
}

#[test]
fn writes_and_reads_numbers(rt: HostRuntime) -> Result<(), Fail> {
    let rows: [Row; 7] = [
        (0, b"0", b"0"),
        (9, b"9", b"9"),
        (10, b"10", b"A"),
        (255, b"255", b"FF"),
        (4096, b"4096", b"1000"),
        (1_000_000_000, b"1000000000", b"3B9ACA00"),
        (u32::MAX, b"4294967295", b"FFFFFFFF"),
    ];
    for (number, decimals, hexadecimals) in rows {
        assert_eq!(rt; decimal(rt, number)?.as_slice(), decimals);
        assert_eq!(rt; hexadecimal(rt, number)?.as_slice(), hexadecimals);
        assert_eq!(rt; number_in(decimals, 10), Some(u64::from(number)));
        assert_eq!(rt; number_in(hexadecimals, 16), Some(u64::from(number)));
    }
    assert_eq!(rt; number_in(b"", 10), Some(0));
    assert_eq!(rt; number_in(b"1A", 10), None);
    assert_eq!(rt; number_in(b"1a", 16), None);
    assert_eq!(rt; number_in(b"1G", 16), None);
    Ok(())
}

#[test]
fn cuts_texts(rt: HostRuntime) -> Result<(), Fail> {
    assert_eq!(rt; before(b"A B", b' '), b"A".as_slice());
    assert_eq!(rt; from_first(b"A B", b' '), b" B".as_slice());
    assert_eq!(rt; before(b"AB", b' '), b"AB".as_slice());
    assert_eq!(rt; from_first(b"AB", b' '), b"".as_slice());
    assert_eq!(rt; behind_blanks(b"  A "), b"A ".as_slice());
    assert_eq!(rt; behind_blanks(b"  "), b"".as_slice());
    Ok(())
}

fn first_error() -> Result<(), NoMemory> {
    Err(AllocError)?;
    Ok(())
}

fn second_error() -> Result<(), NoMemory> {
    Err(AllocFailed { value: 7u8 })?;
    Ok(())
}

#[test]
fn want_of_memory_converts(rt: HostRuntime) {
    assert_eq!(rt; first_error(), Err(NoMemory));
    assert_eq!(rt; second_error(), Err(NoMemory));
}
