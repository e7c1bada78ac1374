//! Feeds that are cut into writes, through pipes of several rooms.

use crate::{Buffered, Chunked, Finish, Fixed, HeadOnly, Plain, StreamSink, listing_sink};
use std::alloc::{AllocError, Global};
use std::process::Abort;
use std::test::Fail;
use tow_pipe::Pipe;

/// Which sinks, the outermost one first.
#[derive(Clone, Copy, Debug)]
enum Kind {
    Plain,
    FixedPlain,
    HeadOnlyChunked,
    BufferedPlain,
    BufferedHeadOnly,
    /// `Buffered`, `Chunked` and `Plain`, as `listing_sink` makes them.
    Listing,
    BufferedChunkedBuffered,
    BufferedFixedChunked,
    FixedBufferedChunked,
}

/// The room of a pipe that is emptied after each call, and the most bytes that a write hands in.
type Cut = (usize, usize);

const CUTS: &[Cut] = &[
    (1, 1_000),
    (1, 40_000),
    (7, 16_384),
    (16_383, 1),
    (16_383, 16_384),
    (65_536, 1_000),
    (65_536, 40_000),
];

// The calls after which a sink is given up.
const CALLS: usize = 1_000_000;

// Hands on what the pipe holds.
fn empty(pipe: &mut Pipe, out: &mut Vec<u8>) -> Result<(), AllocError> {
    out.extend_from_slice(pipe.view())?;
    pipe.take(pipe.len());
    Ok(())
}

fn expect(rt: &impl Abort, found: &[u8], wanted: &[u8]) {
    assert_eq!(rt; found, wanted);
}

// What a sink makes of the content.
fn framed<S: StreamSink>(
    alloc: Global,
    sink: &mut S,
    content: &[u8],
    cut: Cut,
) -> Result<Vec<u8>, Fail> {
    let (room, most) = cut;
    let mut pipe = Pipe::new(alloc, room)?;
    let mut out = Vec::new(alloc);
    let mut fed: usize = 0;
    for _ in 0..CALLS {
        if fed >= content.len() {
            break;
        }
        let rest = &content[fed..];
        let count = sink.write(&mut pipe, &rest[..most.min(rest.len())]);
        fed = fed.saturating_add(count);
        empty(&mut pipe, &mut out)?;
    }
    for _ in 0..CALLS {
        let answer = sink.finish(&mut pipe);
        empty(&mut pipe, &mut out)?;
        if answer == Finish::Finished {
            break;
        }
    }
    Ok(out)
}

// The same by the sinks of this kind.
fn framed_by(alloc: Global, kind: Kind, content: &[u8], cut: Cut) -> Result<Vec<u8>, Fail> {
    let len = content.len() as u64;
    match kind {
        Kind::Plain => {
            let mut sink = Plain::new();
            framed(alloc, &mut sink, content, cut)
        }
        Kind::FixedPlain => {
            let mut sink = Fixed::new(Plain::new(), len);
            framed(alloc, &mut sink, content, cut)
        }
        Kind::HeadOnlyChunked => {
            let mut sink = HeadOnly::new(Chunked::new(Plain::new()));
            framed(alloc, &mut sink, content, cut)
        }
        Kind::BufferedPlain => {
            let mut sink = Buffered::new(alloc, Plain::new())?;
            framed(alloc, &mut sink, content, cut)
        }
        Kind::BufferedHeadOnly => {
            let mut sink = Buffered::new(alloc, HeadOnly::new(Plain::new()))?;
            framed(alloc, &mut sink, content, cut)
        }
        Kind::Listing => {
            let mut sink = listing_sink(alloc)?;
            framed(alloc, &mut sink, content, cut)
        }
        Kind::BufferedChunkedBuffered => {
            let inner = Buffered::new(alloc, Plain::new())?;
            let mut sink = Buffered::new(alloc, Chunked::new(inner))?;
            framed(alloc, &mut sink, content, cut)
        }
        Kind::BufferedFixedChunked => {
            let inner = Fixed::new(Chunked::new(Plain::new()), len);
            let mut sink = Buffered::new(alloc, inner)?;
            framed(alloc, &mut sink, content, cut)
        }
        Kind::FixedBufferedChunked => {
            let inner = listing_sink(alloc)?;
            let mut sink = Fixed::new(inner, len);
            framed(alloc, &mut sink, content, cut)
        }
    }
}

/// Some bytes, and after them so many sevens.
type Part = (&'static [u8], usize);

fn joined(alloc: Global, parts: &[Part]) -> Result<Vec<u8>, AllocError> {
    let mut bytes = Vec::new(alloc);
    for part in parts {
        let (text, count) = *part;
        bytes.extend_from_slice(text)?;
        bytes.extend_from_slice(vec![in alloc; 7u8; count]?.as_slice())?;
    }
    Ok(bytes)
}

/// Sinks, how many sevens they are fed, and what they make of them in every cut.
type Row = (Kind, usize, &'static [Part]);

fn expect_row(rt: &impl Abort, alloc: Global, row: Row, cuts: &[Cut]) -> Result<(), Fail> {
    let (kind, len, parts) = row;
    let content = vec![in alloc; 7u8; len]?;
    let wanted = joined(alloc, parts)?;
    for cut in cuts {
        let found = framed_by(alloc, kind, content.as_slice(), *cut)?;
        assert_eq!(rt;
            found.as_slice(),
            wanted.as_slice(),
            "{kind:?} {len} {cut:?}"
        );
    }
    Ok(())
}

fn expect_all(rt: &impl Abort, alloc: Global, rows: &[Row]) -> Result<(), Fail> {
    for row in rows {
        expect_row(rt, alloc, *row, CUTS)?;
    }
    Ok(())
}

const EMPTY: &[Part] = &[(b"0\r\n\r\n", 0)];

const ONE_BYTE: &[Part] = &[(b"1\r\n", 1), (b"\r\n0\r\n\r\n", 0)];

const ONE_BYTE_LESS: &[Part] = &[(b"3fff\r\n", 16_383), (b"\r\n0\r\n\r\n", 0)];

const ONE_BLOCK: &[Part] = &[(b"4000\r\n", 16_384), (b"\r\n0\r\n\r\n", 0)];

const ONE_BYTE_MORE: &[Part] = &[
    (b"4000\r\n", 16_384),
    (b"\r\n1\r\n", 1),
    (b"\r\n0\r\n\r\n", 0),
];

const THREE_BLOCKS: &[Part] = &[
    (b"4000\r\n", 16_384),
    (b"\r\n4000\r\n", 16_384),
    (b"\r\nab\r\n", 171),
    (b"\r\n0\r\n\r\n", 0),
];

const ROWS: &[Row] = &[
    (Kind::Plain, 0, &[]),
    (Kind::Plain, 16_385, &[(b"", 16_385)]),
    (Kind::FixedPlain, 16_385, &[(b"", 16_385)]),
    (Kind::HeadOnlyChunked, 16_385, &[]),
    (Kind::BufferedPlain, 0, &[]),
    (Kind::BufferedPlain, 16_385, &[(b"", 16_385)]),
    (Kind::BufferedHeadOnly, 16_385, &[]),
    (Kind::Listing, 0, EMPTY),
    (Kind::Listing, 1, ONE_BYTE),
    (Kind::Listing, 16_383, ONE_BYTE_LESS),
    (Kind::Listing, 16_384, ONE_BLOCK),
    (Kind::Listing, 16_385, ONE_BYTE_MORE),
    (Kind::Listing, 32_939, THREE_BLOCKS),
    (Kind::BufferedChunkedBuffered, 16_385, ONE_BYTE_MORE),
    (Kind::BufferedFixedChunked, 16_385, ONE_BYTE_MORE),
    (Kind::FixedBufferedChunked, 16_385, ONE_BYTE_MORE),
];

#[test]
fn a_feed_is_framed_alike_in_every_cut(rt: HostRuntime) -> Result<(), Fail> {
    expect_all(&rt, rt.alloc(), ROWS)
}

// What a sink of chunks makes of writes that begin a block and go on in it.
fn expect_chunk(rt: &impl Abort, alloc: Global, block: &[u8]) -> Result<(), Fail> {
    let mut pipe = Pipe::new(alloc, 9)?;
    let mut out = Vec::new(alloc);
    let mut sink = Chunked::new(Plain::new());
    // The size line takes four of the nine bytes.
    assert_eq!(rt; sink.write(&mut pipe, block), 5);
    empty(&mut pipe, &mut out)?;
    // Not all that is left of the block is handed in, and all of it fits.
    assert_eq!(rt; sink.write(&mut pipe, b"abc"), 3);
    empty(&mut pipe, &mut out)?;
    expect(rt, out.as_slice(), b"ab\r\n\x07\x07\x07\x07\x07abc");
    Ok(())
}

#[test]
fn a_chunk_is_as_long_as_its_first_write(rt: HostRuntime) -> Result<(), Fail> {
    let block = vec![in rt.alloc(); 7u8; 171]?;
    expect_chunk(&rt, rt.alloc(), block.as_slice())
}

#[test]
fn fixed_takes_no_more_than_its_length(rt: HostRuntime) -> Result<(), Fail> {
    let mut pipe = Pipe::new(rt.alloc(), 64)?;
    let mut out = Vec::new(rt.alloc());
    let mut sink = Fixed::new(Plain::new(), 5);
    assert_eq!(rt; sink.write(&mut pipe, b"abc"), 3);
    assert_eq!(rt; sink.write(&mut pipe, b"defg"), 2);
    assert_eq!(rt; sink.write(&mut pipe, b"fg"), 0);
    assert_eq!(rt; sink.finish(&mut pipe), Finish::Finished);
    empty(&mut pipe, &mut out)?;
    expect(&rt, out.as_slice(), b"abcde");
    Ok(())
}

#[test]
fn full_just_where_not_all_fits(rt: HostRuntime) -> Result<(), Fail> {
    let mut pipe = Pipe::new(rt.alloc(), 4)?;
    let mut out = Vec::new(rt.alloc());
    let mut sink = Chunked::new(Plain::new());
    assert_eq!(rt; sink.finish(&mut pipe), Finish::Full);
    assert_eq!(rt; sink.finish(&mut pipe), Finish::Full);
    empty(&mut pipe, &mut out)?;
    assert_eq!(rt; sink.finish(&mut pipe), Finish::Finished);
    empty(&mut pipe, &mut out)?;
    assert_eq!(rt; sink.finish(&mut pipe), Finish::Finished);
    expect(&rt, out.as_slice(), b"0\r\n\r\n");
    Ok(())
}
