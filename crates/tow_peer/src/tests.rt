//! Links in memory: what their calls give, and what they count.

use crate::{Calls, Link, LinkRead, LinkWrite, MemoryLink};
use std::alloc::{AllocError, Global};
use std::process::Abort;
use std::test::Fail;
use tow_link::{Joined, MemorySink, MemorySource};

/// The pieces that come; the numbers of the reads that stall, and of those that fail; the length of the buffer; and what the
/// reads give, one after the other until the end: the bytes of a read in brackets, `.` for a stall, `!` for a failure and
/// `$` for the end.
type ReadRow = (
    &'static [&'static [u8]],
    &'static [u64],
    &'static [u64],
    usize,
    &'static [u8],
);

const READS: &[ReadRow] = &[
    (&[], &[], &[], 4, b"$"),
    (&[b"abc"], &[], &[], 4, b"(abc)$"),
    (&[b"abc"], &[], &[], 2, b"(ab)(c)$"),
    (&[b"ab", b"", b"c"], &[], &[], 4, b"(ab)(c)$"),
    (&[b"ab", b"c"], &[0, 2], &[], 4, b".(ab).(c)$"),
    (&[b"ab", b"c"], &[], &[1], 4, b"(ab)!(c)$"),
    (&[b"ab"], &[0, 1], &[1], 4, b".!(ab)$"),
    (&[b"ab"], &[1], &[], 4, b"(ab).$"),
    (&[b"ab"], &[], &[1], 4, b"(ab)!$"),
];

fn numbers(alloc: Global, from: &[u64]) -> Result<Vec<u64>, AllocError> {
    let mut numbers = Vec::new(alloc);
    numbers.extend_from_slice(from)?;
    Ok(numbers)
}

fn calls(alloc: Global, stalling: &[u64], failing: &[u64]) -> Result<Calls, AllocError> {
    Ok(Calls {
        stalling: numbers(alloc, stalling)?,
        failing: numbers(alloc, failing)?,
    })
}

fn pieces(alloc: Global, from: &[&'static [u8]]) -> Result<Vec<Vec<u8>>, AllocError> {
    let mut pieces = Vec::new(alloc);
    for bytes in from {
        let mut piece = Vec::new(alloc);
        piece.extend_from_slice(bytes)?;
        pieces.push(piece)?;
    }
    Ok(pieces)
}

/// Reads until the end, and shows what each read gave.
fn shown_reads<L: Link>(alloc: Global, link: &mut L, room: usize) -> Result<Vec<u8>, AllocError> {
    let mut buffer = [0; 8];
    let mut shown = Vec::new(alloc);
    for _ in 0..20 {
        match link.read(&mut buffer[..room.clamp(1, 8)]) {
            LinkRead::Got(count) => {
                shown.push(b'(')?;
                shown.extend_from_slice(&buffer[..count.min(8)])?;
                shown.push(b')')?;
            }
            LinkRead::NotYet => shown.push(b'.')?,
            LinkRead::Failed => shown.push(b'!')?,
            LinkRead::End => {
                shown.push(b'$')?;
                return Ok(shown);
            }
        }
    }
    Ok(shown)
}

fn expect_reads(rt: &impl Abort, alloc: Global, row: &ReadRow, number: usize) -> Result<(), Fail> {
    let (from, stalling, failing, room, want) = *row;
    let reads = calls(alloc, stalling, failing)?;
    let mut link = MemoryLink::new(
        alloc,
        7,
        pieces(alloc, from)?,
        reads,
        calls(alloc, &[], &[])?,
    )?;
    let shown = shown_reads(alloc, &mut link, room)?;
    assert_eq!(rt; shown.as_slice(), want, "row {number}");
    assert_eq!(rt; link.peer(), 7, "row {number}");
    Ok(())
}

fn expect_all_reads(rt: &impl Abort, alloc: Global, rows: &[ReadRow]) -> Result<(), Fail> {
    for (number, row) in rows.iter().enumerate() {
        expect_reads(rt, alloc, row, number)?;
    }
    Ok(())
}

#[test]
fn bytes_come_in_their_pieces_with_stalls_and_failures(rt: HostRuntime) -> Result<(), Fail> {
    expect_all_reads(&rt, rt.alloc(), READS)
}

#[test]
fn what_is_written_stands_behind_stalls_and_failures(rt: HostRuntime) -> Result<(), Fail> {
    let alloc = rt.alloc();
    let none = calls(alloc, &[], &[])?;
    let writes = calls(alloc, &[0, 2], &[2])?;
    let mut link = MemoryLink::new(alloc, 0, Vec::new(alloc), none, writes)?;
    assert_eq!(rt; link.write(b"ab"), LinkWrite::NotYet);
    assert_eq!(rt; link.write(b"ab"), LinkWrite::Took(2));
    assert_eq!(rt; link.write(b"c"), LinkWrite::Failed);
    assert_eq!(rt; link.write(b"c"), LinkWrite::Took(1));
    assert_eq!(rt; link.written(), b"abc".as_slice());
    Ok(())
}

#[test]
fn a_source_and_a_sink_are_a_link(rt: HostRuntime) -> Result<(), Fail> {
    let alloc = rt.alloc();
    let mut bytes = Vec::new(alloc);
    bytes.extend_from_slice(b"abc")?;
    let mut link = Joined {
        input: MemorySource::new(bytes, numbers(alloc, &[1])?),
        output: MemorySink::new(alloc, numbers(alloc, &[0])?),
    };
    let shown = shown_reads(alloc, &mut link, 2)?;
    assert_eq!(rt; shown.as_slice(), b"(ab)!(c)$".as_slice());
    assert_eq!(rt; link.write(b"x"), LinkWrite::Failed);
    assert_eq!(rt; link.write(b"x"), LinkWrite::Took(1));
    assert_eq!(rt; link.output.written(), b"x".as_slice());
    assert_eq!(rt; link.peer(), 0x7f00_0001);
    Ok(())
}
