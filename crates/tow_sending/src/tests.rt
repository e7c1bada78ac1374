//! Answers through pipes, piece by piece.

ghost use Rattle.std.specs.Prelude.{◌≡◌, true, IfOk};
ghost use Rattle.tow_sending.specs.Pieces.{IsAskable};

mod files;

use crate::{Sending, Sent};
use std::alloc::{AllocError, Global};
use std::process::Abort;
use std::test::Fail;
use tow_model::{Answer, Bytes, Choice, Framing, List, NoMemory, Request, Version};
use tow_pipe::Pipe;

const HEAD: &[u8] = b"HTTP/1.1 200 OK\r\n\r\n";

/// What the choice of an answer is; the numbers are bytes.
#[derive(Clone, Copy, Debug, Drop)]
enum Shape {
    Undecided,
    Empty,
    Whole(usize),
    File(u64),
    Listing(usize),
}

fn request(alloc: Global, method: &[u8], version: Version) -> Result<Request, AllocError> {
    Ok(Request {
        method: Bytes::from_slice(alloc, method)?,
        target: Bytes::from_slice(alloc, b"/a")?,
        version,
        fields: List::new(alloc),
        url: Bytes::from_slice(alloc, b"/a")?,
        path: Bytes::from_slice(alloc, b"/a")?,
        query: None,
        framing: Framing::Empty,
        expects: false,
        keep: true,
        peer: 0,
    })
}

fn letters(alloc: Global, count: usize) -> Result<Bytes, AllocError> {
    Ok(Bytes::from_vec(vec![in alloc; b'x'; count]?))
}

fn choice(alloc: Global, shape: Shape) -> Result<Choice, AllocError>
    ensures { IfOk result (λ c. IsAskable c) }
{
    Ok(match shape {
        Shape::Undecided => Choice::Undecided,
        Shape::Empty => Choice::Empty,
        Shape::Whole(count) => Choice::Whole(letters(alloc, count)?),
        Shape::File(len) => Choice::File {
            path: Bytes::from_slice(alloc, b"/")?,
            len,
        },
        Shape::Listing(count) => Choice::Listing(letters(alloc, count)?),
    })
}

fn sending(
    alloc: Global,
    method: &[u8],
    version: Version,
    status: u16,
    shape: Shape,
) -> Result<Sending, NoMemory> {
    let answer = Answer {
        status,
        fields: List::new(alloc),
        choice: choice(alloc, shape)?,
        close: false,
    };
    Sending::new(alloc, &request(alloc, method, version)?, answer)
}

/// What an answer put through a pipe that is emptied whenever it is full: all bytes, and the pieces of each fill.
#[derive(Drop)]
struct Driven {
    bytes: Vec<u8>,
    fills: Vec<usize>,
}

fn empty(pipe: &mut Pipe, bytes: &mut Vec<u8>) -> Result<(), AllocError> {
    bytes.extend_from_slice(pipe.view())?;
    pipe.take(pipe.len());
    Ok(())
}

fn note(fills: &mut Vec<usize>, pieces: usize) -> Result<(), AllocError> {
    fills.push(pieces)?;
    Ok(())
}

fn drive(
    rt: &impl Abort,
    alloc: Global,
    sending: &mut Sending,
    capacity: usize,
) -> Result<Driven, NoMemory> {
    let mut pipe = Pipe::new(alloc, capacity)?;
    let mut driven = Driven {
        bytes: Vec::new(alloc),
        fills: Vec::new(alloc),
    };
    let mut pieces: usize = 0;
    for _ in 0..64 {
        match sending.put(&mut pipe) {
            Sent::Piece => pieces = pieces.saturating_add(1),
            Sent::Full => {
                empty(&mut pipe, &mut driven.bytes)?;
                note(&mut driven.fills, pieces)?;
                pieces = 0;
            }
            Sent::Whole => {
                empty(&mut pipe, &mut driven.bytes)?;
                note(&mut driven.fills, pieces.saturating_add(1))?;
                break;
            }
            Sent::NeedWorker | Sent::FolderFault => break,
        }
    }
    assert_eq!(rt; sending.put(&mut pipe), Sent::Whole);
    assert_eq!(rt; pipe.len(), 0);
    Ok(driven)
}

/// Some bytes, and after them so many letters.
type Part = (&'static [u8], usize);

fn joined(alloc: Global, parts: &[Part]) -> Result<Vec<u8>, AllocError> {
    let mut bytes = Vec::new(alloc);
    bytes.extend_from_slice(HEAD)?;
    for part in parts {
        let (text, count) = *part;
        bytes.extend_from_slice(text)?;
        bytes.extend_from_slice(letters(alloc, count)?.as_slice())?;
    }
    Ok(bytes)
}

fn expect_driven(
    rt: &impl Abort,
    alloc: Global,
    mut sending: Sending,
    wanted: &[u8],
    fills: &[usize],
) -> Result<(), NoMemory> {
    let driven = drive(rt, alloc, &mut sending, 65_536)?;
    assert_eq!(rt; driven.bytes.as_slice(), wanted);
    assert_eq!(rt; driven.fills.as_slice(), fills);
    Ok(())
}

/// The method, the status and the choice of an answer, and its head.
type Bare = (&'static [u8], u16, Shape, &'static [u8]);

const BARE: &[Bare] = &[
    (b"GET", 200, Shape::Undecided, HEAD),
    (b"GET", 200, Shape::Empty, HEAD),
    (b"GET", 200, Shape::Whole(0), HEAD),
    (b"GET", 200, Shape::File(0), HEAD),
    (b"HEAD", 200, Shape::Whole(5), HEAD),
    (b"HEAD", 200, Shape::File(5), HEAD),
    (b"HEAD", 200, Shape::Listing(16_384), HEAD),
    (
        b"GET",
        204,
        Shape::Whole(5),
        b"HTTP/1.1 204 No Content\r\n\r\n",
    ),
    (
        b"GET",
        204,
        Shape::Listing(5),
        b"HTTP/1.1 204 No Content\r\n\r\n",
    ),
    (
        b"GET",
        304,
        Shape::Whole(5),
        b"HTTP/1.1 304 Not Modified\r\n\r\n",
    ),
    (
        b"GET",
        304,
        Shape::File(5),
        b"HTTP/1.1 304 Not Modified\r\n\r\n",
    ),
];

fn expect_bare(rt: &impl Abort, alloc: Global, rows: &[Bare]) -> Result<(), NoMemory> {
    for row in rows {
        let (method, status, shape, wanted) = *row;
        let sending = sending(alloc, method, Version::V11, status, shape)?;
        expect_driven(rt, alloc, sending, wanted, &[1])?;
    }
    Ok(())
}

#[test]
fn answers_without_content_are_whole_after_their_head(rt: HostRuntime) -> Result<(), Fail> {
    expect_bare(&rt, rt.alloc(), BARE)?;
    Ok(())
}

/// The version and the choice of an answer, what follows its head, and how many pieces each fill of the pipe has.
type TextRow = (Version, Shape, &'static [Part], &'static [usize]);

const LAST: &[u8] = b"\r\n0\r\n\r\n";

const TEXTS: &[TextRow] = &[
    (Version::V11, Shape::Whole(5), &[(b"", 5)], &[2]),
    (Version::V11, Shape::Whole(16_384), &[(b"", 16_384)], &[2]),
    (Version::V10, Shape::Whole(16_385), &[(b"", 16_385)], &[3]),
    (
        Version::V11,
        Shape::Whole(70_000),
        &[(b"", 70_000)],
        &[4, 2],
    ),
    (Version::V11, Shape::Listing(0), &[(b"0\r\n\r\n", 0)], &[2]),
    (
        Version::V11,
        Shape::Listing(26),
        &[(b"1a\r\n", 26), (LAST, 0)],
        &[3],
    ),
    (
        Version::V11,
        Shape::Listing(2_748),
        &[(b"abc\r\n", 2_748), (LAST, 0)],
        &[3],
    ),
    (
        Version::V11,
        Shape::Listing(16_384),
        &[(b"4000\r\n", 16_384), (LAST, 0)],
        &[3],
    ),
    (
        Version::V11,
        Shape::Listing(16_385),
        &[(b"4000\r\n", 16_384), (b"\r\n1\r\n", 1), (LAST, 0)],
        &[4],
    ),
    (Version::V10, Shape::Listing(16_384), &[(b"", 16_384)], &[2]),
    (Version::V10, Shape::Listing(16_385), &[(b"", 16_385)], &[3]),
];

fn expect_texts(rt: &impl Abort, alloc: Global, rows: &[TextRow]) -> Result<(), NoMemory> {
    for row in rows {
        let (version, shape, parts, fills) = *row;
        let sending = sending(alloc, b"GET", version, 200, shape)?;
        let wanted = joined(alloc, parts)?;
        expect_driven(rt, alloc, sending, wanted.as_slice(), fills)?;
    }
    Ok(())
}

#[test]
fn contents_go_in_blocks_and_listings_in_chunks(rt: HostRuntime) -> Result<(), Fail> {
    expect_texts(&rt, rt.alloc(), TEXTS)?;
    Ok(())
}

/// The version and the choice of an answer, how many of its pieces are put already, how many bytes the next one takes,
/// and what is told of it.
type Next = (Version, Shape, usize, usize, Sent);

const NEXT: &[Next] = &[
    (Version::V11, Shape::Empty, 0, 19, Sent::Whole),
    (Version::V11, Shape::Whole(1), 0, 19, Sent::Piece),
    (Version::V11, Shape::Whole(20_000), 1, 16_384, Sent::Piece),
    (Version::V11, Shape::Whole(20_000), 2, 3_616, Sent::Whole),
    (Version::V11, Shape::Listing(20_000), 1, 16_392, Sent::Piece),
    (Version::V11, Shape::Listing(20_000), 2, 3_623, Sent::Piece),
    (Version::V11, Shape::Listing(20_000), 3, 5, Sent::Whole),
    (Version::V10, Shape::Listing(20_000), 2, 3_616, Sent::Whole),
];

fn after(rt: &impl Abort, alloc: Global, row: Next) -> Result<Sending, NoMemory> {
    let mut sending = sending(alloc, b"GET", row.0, 200, row.1)?;
    let mut pipe = Pipe::new(alloc, 65_536)?;
    for _ in 0..row.2 {
        assert_eq!(rt; sending.put(&mut pipe), Sent::Piece);
    }
    Ok(sending)
}

fn expect_next(rt: &impl Abort, alloc: Global, rows: &[Next]) -> Result<(), NoMemory> {
    for row in rows {
        let (_, _, _, takes, tells) = *row;
        let mut sending = after(rt, alloc, *row)?;
        // One byte less than it takes, and then just so many.
        let mut short = Pipe::new(alloc, takes.max(1) - 1)?;
        assert_eq!(rt; sending.put(&mut short), Sent::Full);
        assert_eq!(rt; short.len(), 0);
        let mut fitting = Pipe::new(alloc, takes)?;
        assert_eq!(rt; sending.put(&mut fitting), tells);
        assert_eq!(rt; fitting.len(), takes);
        // With room for all, one call puts no more.
        let mut again = after(rt, alloc, *row)?;
        let mut roomy = Pipe::new(alloc, 65_536)?;
        assert_eq!(rt; again.put(&mut roomy), tells);
        assert_eq!(rt; roomy.len(), takes);
    }
    Ok(())
}

#[test]
fn a_piece_is_put_whole_or_not_at_all(rt: HostRuntime) -> Result<(), Fail> {
    expect_next(&rt, rt.alloc(), NEXT)?;
    Ok(())
}

#[test]
fn a_piece_of_a_file_needs_a_worker_whatever_the_room(rt: HostRuntime) -> Result<(), Fail> {
    let alloc = rt.alloc();
    let mut sending = sending(alloc, b"GET", Version::V11, 200, Shape::File(20_000))?;
    let mut pipe = Pipe::new(alloc, 20)?;
    assert_eq!(rt; sending.put(&mut pipe), Sent::Piece);
    assert_eq!(rt; pipe.len(), 19);
    // There is no room for it, and that is not looked at.
    assert_eq!(rt; sending.put(&mut pipe), Sent::NeedWorker);
    let mut roomy = Pipe::new(alloc, 65_536)?;
    assert_eq!(rt; sending.put(&mut roomy), Sent::NeedWorker);
    assert_eq!(rt; roomy.len(), 0);
    Ok(())
}
