//! What is left to be put of a content.

ghost use Rattle.std.specs.Prelude.{◌≡◌, ◌≤◌, IfOk, take, drop, if◌then◌else◌};
ghost use Rattle.std.specs.Option.{ForSome};
ghost use Rattle.tow_faults.specs.Faults.{KeepsOtherFaults, faults_for};
ghost use Rattle.tow_link.specs.Data.{Rose};
ghost use Rattle.tow_model.specs.declared.limits.TheConstants.{BLOCK_LEN};
ghost use Rattle.tow_wire.specs.Answers.{chunk_text};
ghost use Rattle.tow_sending.specs.Bodies.{body_pieces};
ghost use Rattle.tow_sending.specs.Parts.{PutsPart, left_of_part};
ghost use Rattle.tow_sending.specs.Pieces.{HasParts, IsAskable, PutsText, content_pieces, first_own, left_if, next_of};

use crate::file_rest::FileRest;
use crate::putting::{put_chunk, put_whole};
use crate::rest::Rest;
use crate::sent::{Next, PartPut};
use std::alloc::Global;
use tow_folder::Folder;
use tow_model::{Choice, NoMemory, Version};
use tow_pipe::Pipe;

/// The content that is left.
#[derive(Debug, Drop)]
pub(crate) enum Body {
    Nothing,
    /// Bytes as they are.
    Plain(Rest),
    /// Bytes that are put in chunks. After the last of them the last chunk's line is left.
    Chunks(Rest),
    File(FileRest),
}

impl Body {
    /// The content of a choice for a request of this version. Takes memory for the largest piece of a file.
    pub(crate) fn new(alloc: Global, version: Version, choice: Choice) -> Result<Body, NoMemory>
        requires { IsAskable choice }
        ensures { IfOk result (λ b. body_pieces b ≡ content_pieces version choice) }
    {
        match choice {
            Choice::Undecided | Choice::Empty => Ok(Body::Nothing),
            Choice::Whole(bytes) => Ok(Body::Plain(Rest::new(bytes))),
            Choice::File { path, len } => Ok(Body::File(FileRest::new(alloc, path, len)?)),
            Choice::Listing(bytes) => match version {
                Version::V10 => Ok(Body::Plain(Rest::new(bytes))),
                Version::V11 => Ok(Body::Chunks(Rest::new(bytes))),
            },
        }
    }

    /// What is to be put next.
    pub(crate) fn next(&self) -> Next
        ensures { result ≡ next_of (body_pieces self.now) }
    {
        match self {
            Body::Nothing => Next::Nothing,
            Body::Plain(rest) => {
                if rest.is_empty() {
                    Next::Nothing
                } else {
                    Next::Own
                }
            }
            Body::Chunks(_) => Next::Own,
            Body::File(rest) => rest.next(),
        }
    }

    /// Puts the next piece, which the answer has itself, if the pipe has room for it. Takes no memory.
    pub(crate) fn put_own(&mut self, pipe: &mut Pipe) -> bool
        requires { next_of (body_pieces self.old) ≡ Next.Own }
        ensures puts { PutsText (first_own (body_pieces self.old)) result pipe.old pipe.new }
        ensures left { body_pieces self.new ≡ left_if result (body_pieces self.old) }
    {
        match self {
            Body::Nothing | Body::File(_) => false,
            Body::Plain(rest) => put_block(rest, pipe),
            Body::Chunks(rest) => {
                if !rest.is_empty() {
                    return put_next_chunk(rest, pipe);
                }
                let done = put_whole(pipe, LAST_CHUNK);
                if done {
                    *self = Body::Nothing;
                }
                done
            }
        }
    }

    /// Reads the next piece, which is a file's, and puts it, if the pipe has room for it. Takes no memory.
    pub(crate) fn put_part<F: Folder>(&mut self, pipe: &mut Pipe, folder: &mut F, k: u32) -> PartPut
        requires some { next_of (body_pieces self.old) ≡ Next.File }
        requires there { ForSome (F.shows folder.old).told (λ files.
            HasParts files (body_pieces self.old)) }
        ensures told { (F.shows folder.new).told ≡ (F.shows folder.old).told }
        ensures puts { PutsPart (F.shows folder.old).told result (body_pieces self.old) pipe.old
            pipe.new }
        ensures left { body_pieces self.new ≡ left_of_part result (body_pieces self.old) }
        ensures failed { result ≡ PartPut.Fault → Rose (faults_for (F.shows folder.old).faults k)
            (faults_for (F.shows folder.new).faults k) }
        ensures idle { result ≡ PartPut.NoRoom → folder.new ≡ folder.old }
        ensures later { faults_for (F.shows folder.old).faults k
            ≤ faults_for (F.shows folder.new).faults k }
        ensures others { KeepsOtherFaults (F.shows folder.old).faults (F.shows folder.new).faults k }
    {
        match self {
            Body::Nothing | Body::Plain(_) | Body::Chunks(_) => PartPut::NoRoom,
            Body::File(rest) => rest.put(pipe, folder, k),
        }
    }
}

/// The line of the last chunk and the empty line after it.
const LAST_CHUNK: &[u8] = b"0\r\n\r\n";

/// Puts the next block as it is, if the pipe has room for it. Takes no memory.
pub(crate) fn put_block(rest: &mut Rest, pipe: &mut Pipe) -> bool
    ensures puts { PutsText (take BLOCK_LEN rest.old) result pipe.old pipe.new }
    ensures left { rest.new ≡ (if result then drop BLOCK_LEN rest.old else rest.old) }
{
    let done = put_whole(pipe, rest.first());
    if done {
        rest.pass();
    }
    done
}

/// Puts the next block as a chunk, if the pipe has room for it. Takes no memory.
fn put_next_chunk(rest: &mut Rest, pipe: &mut Pipe) -> bool
    ensures puts { PutsText (chunk_text (take BLOCK_LEN rest.old)) result pipe.old pipe.new }
    ensures left { rest.new ≡ (if result then drop BLOCK_LEN rest.old else rest.old) }
{
    let done = put_chunk(pipe, rest.first());
    if done {
        rest.pass();
    }
    done
}
