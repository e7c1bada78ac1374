//! The longest contents, and those that are a byte longer.

use crate::{Gathered, Gathering};
use std::alloc::{AllocError, Global};
use std::process::Abort;
use std::test::Fail;
use tow_model::limits::PIPE_LEN;
use tow_model::{Content, Framing, NoMemory};
use tow_pipe::Pipe;

/// The bytes of the longest content.
const LONGEST: usize = 1_048_576;

/// How many bytes come at a time.
const PIECES: &[usize] = &[1_000, 4_097, 65_536];

/// What an input came to that comes in pieces of so many bytes.
fn gather(
    alloc: Global,
    framing: Framing,
    input: &[u8],
    piece: usize,
) -> Result<Gathered, NoMemory> {
    let mut pipe = Pipe::new(alloc, PIPE_LEN)?;
    let mut gathering = Gathering::new(alloc, framing);
    for part in input.chunks(piece.max(1)) {
        pipe.put(part);
        match gathering.run(alloc, &mut pipe) {
            Gathered::NotYet => {}
            end => return Ok(end),
        }
    }
    Ok(gathering.run(alloc, &mut pipe))
}

/// It is the longest content, and stands in a block of just so many bytes.
fn expect_longest(rt: &impl Abort, gathered: Gathered, wanted: &[u8]) {
    match gathered {
        Gathered::Content(Content::Whole(bytes)) => {
            assert!(rt; bytes.as_slice() == wanted);
            assert_eq!(rt; bytes.into_vec().capacity(), LONGEST);
        }
        _ => assert!(rt; false, "another end"),
    }
}

fn expect_lengths(rt: &impl Abort, alloc: Global, pieces: &[usize]) -> Result<(), Fail> {
    let bytes = vec![in alloc; 7u8; LONGEST]?;
    for piece in pieces {
        let framing = Framing::Fixed(LONGEST as u64);
        let gathered = gather(alloc, framing, bytes.as_slice(), *piece)?;
        expect_longest(rt, gathered, bytes.as_slice());
    }
    Ok(())
}

#[test]
fn a_length_of_the_limit(rt: HostRuntime) -> Result<(), Fail> {
    expect_lengths(&rt, rt.alloc(), PIECES)
}

/// Sixteen chunks of 65,536 bytes, and the rest.
fn sixteen_chunks(alloc: Global, rest: &[u8]) -> Result<Vec<u8>, AllocError> {
    let data = vec![in alloc; 7u8; 65_536]?;
    let mut input = Vec::new(alloc);
    for _ in 0..16 {
        input.extend_from_slice(b"10000\r\n")?;
        input.extend_from_slice(data.as_slice())?;
        input.extend_from_slice(b"\r\n")?;
    }
    input.extend_from_slice(rest)?;
    Ok(input)
}

fn expect_chunks(rt: &impl Abort, alloc: Global, pieces: &[usize]) -> Result<(), Fail> {
    let bytes = vec![in alloc; 7u8; LONGEST]?;
    let input = sixteen_chunks(alloc, b"0\r\n\r\n")?;
    for piece in pieces {
        let gathered = gather(alloc, Framing::Chunked, input.as_slice(), *piece)?;
        expect_longest(rt, gathered, bytes.as_slice());
    }
    Ok(())
}

#[test]
fn chunks_up_to_the_limit(rt: HostRuntime) -> Result<(), Fail> {
    expect_chunks(&rt, rt.alloc(), PIECES)
}

fn expect_too_long(rt: &impl Abort, alloc: Global, pieces: &[usize]) -> Result<(), Fail> {
    let input = sixteen_chunks(alloc, b"1\r\na")?;
    for piece in pieces {
        let gathered = gather(alloc, Framing::Chunked, input.as_slice(), *piece)?;
        assert!(rt; matches!(gathered, Gathered::Content(Content::TooLong)));
    }
    Ok(())
}

#[test]
fn chunks_above_the_limit(rt: HostRuntime) -> Result<(), Fail> {
    expect_too_long(&rt, rt.alloc(), PIECES)
}
