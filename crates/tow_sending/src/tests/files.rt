//! Answers with a file of a folder, piece by piece.

ghost use Rattle.std.specs.Prelude.{◌≡◌, true, IfOk};
ghost use Rattle.std.specs.Option.{ForSome};
ghost use Rattle.tow_folder.specs.Folders.{is_askable};
ghost use Rattle.tow_sending.specs.Pieces.{HasParts, IsAskable};

use super::{Driven, HEAD, empty, note, request};
use crate::{Sending, Sent};
use std::alloc::{AllocError, Global};
use std::process::Abort;
use std::test::Fail;
use tow_folder::{FailingCalls, Folder, Look, MemoryFile, MemoryFolder};
use tow_model::{Answer, Bytes, Choice, Field, List, NoMemory, Version};
use tow_pipe::Pipe;

/// The path of the file.
#[tactic(auto, using(crate::proofs::FileTests::path_is_askable))]
fn file_path() -> &'static [u8]
    ensures { is_askable result.now ≡ true }
{
    b"/f"
}

/// Bytes of which each is told by its place, so that one that is read from elsewhere is seen.
fn numbered(alloc: Global, count: usize) -> Result<Bytes, AllocError> {
    let mut bytes = Vec::new(alloc);
    for at in 0..count {
        bytes.push((at % 251) as u8)?;
    }
    Ok(Bytes::from_vec(bytes))
}

/// A folder with one file of so many bytes, of which these reads fail.
fn folder(
    rt: &impl Abort,
    alloc: Global,
    len: usize,
    reads: &[u64],
) -> Result<MemoryFolder, AllocError> {
    let mut files = Vec::new(alloc);
    files.push(MemoryFile {
        path: Bytes::from_slice(alloc, file_path())?,
        second: 0,
        bytes: numbered(alloc, len)?,
    })?;
    let failing = FailingCalls {
        look: Vec::new(alloc),
        read_at: reads.to_vec(alloc)?,
        names: Vec::new(alloc),
    };
    match MemoryFolder::new(alloc, files, failing) {
        Ok(folder) => Ok(folder),
        Err(_) => panic!(rt; "the file is no folder"),
    }
}

/// The name and the value of a field.
type Line = (&'static [u8], &'static [u8]);

fn fields(alloc: Global, lines: &[Line]) -> Result<List<Field>, AllocError> {
    let mut fields = List::new(alloc);
    for (name, value) in lines {
        fields.push(Field {
            name: Bytes::from_slice(alloc, name)?,
            value: Bytes::from_slice(alloc, value)?,
        })?;
    }
    Ok(fields)
}

/// The answer with these fields and so many bytes of the file at the path.
fn answer(alloc: Global, path: &[u8], len: u64, lines: &[Line]) -> Result<Answer, AllocError>
    requires { is_askable path.now ≡ true }
    ensures choice { IfOk result (λ a. a.choice ≡ Choice.File path.now len) }
    ensures askable { IfOk result (λ a. IsAskable a.choice) }
{
    Ok(Answer {
        status: 200,
        fields: fields(alloc, lines)?,
        choice: Choice::File {
            path: Bytes::from_slice(alloc, path)?,
            len,
        },
        close: false,
    })
}

/// The answer with these fields and all of the file.
fn sending<R: Abort, F: Folder>(
    rt: &R,
    alloc: Global,
    folder: &mut F,
    lines: &[Line],
) -> Result<Sending, NoMemory>
    ensures { IfOk result (λ s. ForSome (F.shows folder.new).told (λ files. HasParts files s)) }
{
    let path = file_path();
    let Look::File { len, second } = folder.look(3, path) else {
        panic!(rt; "there is no file");
    };
    assert_eq!(rt; second, 0);
    let request = request(alloc, b"GET", Version::V11)?;
    let answer = answer(alloc, path, len, lines)?;
    let sending = Sending::new(alloc, &request, answer)?;
    Ok(sending)
}

/// Puts the next piece for connection 3.
fn put<F: Folder>(sending: &mut Sending, pipe: &mut Pipe, folder: &mut F) -> Sent
    requires { ForSome (F.shows folder.old).told (λ files. HasParts files sending.old) }
    ensures { ForSome (F.shows folder.new).told (λ files. HasParts files sending.new) }
{
    sending.put_file(pipe, folder, 3)
}

/// What an answer put through a pipe of 65,536 bytes that is emptied whenever it is full.
fn drive<F: Folder>(
    alloc: Global,
    sending: &mut Sending,
    folder: &mut F,
) -> Result<Driven, NoMemory>
    requires { ForSome (F.shows folder.old).told (λ files. HasParts files sending.old) }
{
    let mut pipe = Pipe::new(alloc, 65_536)?;
    let mut driven = Driven {
        bytes: Vec::new(alloc),
        fills: Vec::new(alloc),
    };
    let mut pieces: usize = 0;
    'calls: for _ in 0..64 {
        match put(sending, &mut pipe, folder) {
            Sent::Piece => pieces = pieces.saturating_add(1),
            Sent::Full => {
                empty(&mut pipe, &mut driven.bytes)?;
                note(&mut driven.fills, pieces)?;
                pieces = 0;
            }
            Sent::Whole => {
                empty(&mut pipe, &mut driven.bytes)?;
                note(&mut driven.fills, pieces.saturating_add(1))?;
                break;
            }
            Sent::NeedWorker | Sent::FolderFault => break,
        }
    }
    Ok(driven)
}

const BIG_FIELDS: &[Line] = &[
    (b"content-length", b"200000"),
    (b"content-type", b"application/octet-stream"),
    (b"date", b"Thu, 01 Jan 1970 00:00:00 GMT"),
    (b"last-modified", b"Thu, 01 Jan 1970 00:00:00 GMT"),
];

const BIG_HEAD: &[u8] = b"HTTP/1.1 200 OK\r\n\
    content-length: 200000\r\n\
    content-type: application/octet-stream\r\n\
    date: Thu, 01 Jan 1970 00:00:00 GMT\r\n\
    last-modified: Thu, 01 Jan 1970 00:00:00 GMT\r\n\r\n";

/// The head and the file of so many bytes.
fn whole(alloc: Global, head: &[u8], len: usize) -> Result<Vec<u8>, AllocError> {
    let mut bytes = Vec::new(alloc);
    bytes.extend_from_slice(head)?;
    bytes.extend_from_slice(numbered(alloc, len)?.as_slice())?;
    Ok(bytes)
}

#[test]
fn a_file_goes_in_thirteen_pieces_after_its_head(rt: HostRuntime) -> Result<(), Fail> {
    let alloc = rt.alloc();
    let mut folder = folder(&rt, alloc, 200_000, &[])?;
    let mut sending = sending(&rt, alloc, &mut folder, BIG_FIELDS)?;
    let driven = drive(alloc, &mut sending, &mut folder)?;
    assert_eq!(rt; BIG_HEAD.len(), 166);
    assert_eq!(rt;
        driven.bytes.as_slice(),
        whole(alloc, BIG_HEAD, 200_000)?.as_slice()
    );
    // The head is the first piece of the first fill.
    assert_eq!(rt; driven.fills.as_slice(), [1 + 3, 4, 4, 2].as_slice());
    Ok(())
}

/// What a call told, and how many bytes the pipe held after it.
type Told = (Sent, usize);

/// What so many calls told.
fn calls<F: Folder>(
    alloc: Global,
    sending: &mut Sending,
    pipe: &mut Pipe,
    folder: &mut F,
    count: usize,
) -> Result<Vec<Told>, AllocError>
    requires { ForSome (F.shows folder.old).told (λ files. HasParts files sending.old) }
    ensures { ForSome (F.shows folder.new).told (λ files. HasParts files sending.new) }
{
    let mut told = Vec::new(alloc);
    'calls: for _ in 0..count {
        let sent = put(sending, pipe, folder);
        told.push((sent, pipe.len()))?;
    }
    Ok(told)
}

/// The length of a file, how many pieces are put already, the room of the pipe for the next one,
/// and what its call tells.
type RoomRow = (usize, usize, usize, Told);

const ROOMS: &[RoomRow] = &[
    (20_000, 0, 18, (Sent::Full, 0)),
    (20_000, 0, 19, (Sent::Piece, 19)),
    (20_000, 0, 65_536, (Sent::Piece, 19)),
    (20_000, 1, 0, (Sent::Full, 0)),
    (20_000, 1, 16_383, (Sent::Full, 0)),
    (20_000, 1, 16_384, (Sent::Piece, 16_384)),
    (20_000, 1, 65_536, (Sent::Piece, 16_384)),
    (20_000, 2, 3_615, (Sent::Full, 0)),
    (20_000, 2, 3_616, (Sent::Whole, 3_616)),
    (20_000, 2, 65_536, (Sent::Whole, 3_616)),
    (16_384, 1, 16_383, (Sent::Full, 0)),
    (16_384, 1, 16_384, (Sent::Whole, 16_384)),
    (16_385, 1, 16_384, (Sent::Piece, 16_384)),
    (16_385, 2, 0, (Sent::Full, 0)),
    (16_385, 2, 1, (Sent::Whole, 1)),
    (0, 0, 19, (Sent::Whole, 19)),
];

fn expect_told(rt: &impl Abort, alloc: Global, row: &RoomRow) -> Result<(), NoMemory> {
    let (len, before, room, told) = *row;
    let mut folder = folder(rt, alloc, len, &[])?;
    let mut sending = sending(rt, alloc, &mut folder, &[])?;
    let mut begun = Pipe::new(alloc, 65_536)?;
    calls(alloc, &mut sending, &mut begun, &mut folder, before)?;
    let mut pipe = Pipe::new(alloc, room)?;
    let next = calls(alloc, &mut sending, &mut pipe, &mut folder, 1)?;
    assert_eq!(rt; next.as_slice(), [told].as_slice());
    Ok(())
}

fn expect_all_told(rt: &impl Abort, alloc: Global, rows: &[RoomRow]) -> Result<(), NoMemory> {
    for row in rows {
        expect_told(rt, alloc, row)?;
    }
    Ok(())
}

#[test]
fn a_piece_of_a_file_is_put_whole_or_not_at_all(rt: HostRuntime) -> Result<(), Fail> {
    expect_all_told(&rt, rt.alloc(), ROOMS)?;
    Ok(())
}

/// The reads that fail, what the calls tell, and for which connections a fault was counted.
type FaultRow = (&'static [u64], &'static [Told], &'static [u32]);

const FAULTS: &[FaultRow] = &[
    (
        &[2],
        &[
            (Sent::Piece, 19),
            (Sent::Piece, 16_403),
            (Sent::Whole, 20_019),
            (Sent::Whole, 20_019),
        ],
        &[],
    ),
    (
        &[0],
        &[
            (Sent::Piece, 19),
            (Sent::FolderFault, 19),
            (Sent::Piece, 16_403),
            (Sent::Whole, 20_019),
        ],
        &[3],
    ),
    (
        &[1, 2],
        &[
            (Sent::Piece, 19),
            (Sent::Piece, 16_403),
            (Sent::FolderFault, 16_403),
            (Sent::FolderFault, 16_403),
            (Sent::Whole, 20_019),
        ],
        &[3, 3],
    ),
];

fn expect_faults(rt: &impl Abort, alloc: Global, row: &FaultRow) -> Result<(), NoMemory> {
    let (reads, told, failed) = *row;
    let mut folder = folder(rt, alloc, 20_000, reads)?;
    let mut sending = sending(rt, alloc, &mut folder, &[])?;
    let mut pipe = Pipe::new(alloc, 65_536)?;
    let all = calls(alloc, &mut sending, &mut pipe, &mut folder, told.len())?;
    assert_eq!(rt; all.as_slice(), told);
    assert_eq!(rt; folder.failed(), failed);
    let shown: &[u8] = pipe.view();
    assert_eq!(rt; shown, whole(alloc, HEAD, 20_000)?.as_slice());
    Ok(())
}

fn expect_all_faults(rt: &impl Abort, alloc: Global, rows: &[FaultRow]) -> Result<(), NoMemory> {
    for row in rows {
        expect_faults(rt, alloc, row)?;
    }
    Ok(())
}

#[test]
fn a_read_that_fails_puts_nothing_and_is_counted(rt: HostRuntime) -> Result<(), Fail> {
    expect_all_faults(&rt, rt.alloc(), FAULTS)?;
    Ok(())
}
