//! What is left to be put of a file.

ghost use Rattle.std.specs.Prelude.{◌≡◌, ◌≤◌, ◌<◌, ◌-◌, min, true, drop, IfOk, IfSome, length};
ghost use Rattle.std.specs.Option.{ForSome};
ghost use Rattle.tow_faults.specs.Faults.{KeepsOtherFaults, faults_for};
ghost use Rattle.tow_folder.specs.Folders.{is_askable};
ghost use Rattle.tow_link.specs.Data.{Rose};
ghost use Rattle.tow_model.specs.declared.limits.TheConstants.{BLOCK_LEN};
ghost use Rattle.tow_sending.specs.Pieces.{HasParts, next_of};
ghost use Rattle.tow_sending.specs.Places.{pieces_at};
ghost use Rattle.tow_sending.specs.Parts.{PutsPart, left_of_part};

use crate::reading::read_piece;
use crate::sent::{Next, PartPut};
use std::alloc::Global;
use std::marker::Model;
use tow_folder::Folder;
use tow_model::limits::BLOCK_LEN;
use tow_model::{Bytes, NoMemory};
use tow_pipe::Pipe;

/// A file of which `at` of `len` bytes are put. Contracts see where it stands.
#[derive(Debug, Drop)]
pub(crate) struct FileRest {
    path: Bytes,
    at: u64,
    len: u64,
    // a piece on its way from the folder to the pipe
    piece: Vec<u8>,
}

impl Model for FileRest {
    ghost use Rattle.tow_sending.specs.Places.{IsPlace, Place};

    ghost Value = { Place };

    ghost view = { λ f. record { path = f.path; at = f.at; len = f.len } };

    ghost invariant = { λ f. IsPlace (record { path = f.path; at = f.at; len = f.len })
        f.piece.items };
}

impl FileRest {
    /// All of a file of this length. Takes memory for its largest piece.
    pub(crate) fn new(alloc: Global, path: Bytes, len: u64) -> Result<FileRest, NoMemory>
        requires { is_askable path ≡ true }
        ensures { IfOk result (λ f. f ≡ record { path = path; at = 0; len = len }) }
    {
        let piece = vec![in alloc; 0u8; block_len(len)]?;
        Ok(FileRest {
            path,
            at: 0,
            len,
            piece,
        })
    }

    /// What is to be put next.
    pub(crate) fn next(&self) -> Next
        ensures { result ≡ next_of (pieces_at self.now) }
    {
        if self.at == self.len {
            Next::Nothing
        } else {
            Next::File
        }
    }

    /// Reads the next piece and puts it, if the pipe has room for it. Takes no memory.
    pub(crate) fn put<F: Folder>(&mut self, pipe: &mut Pipe, folder: &mut F, k: u32) -> PartPut
        requires some { next_of (pieces_at self.old) ≡ Next.File }
        requires there { ForSome (F.shows folder.old).told (λ files. HasParts files (pieces_at self.old)) }
        ensures told { (F.shows folder.new).told ≡ (F.shows folder.old).told }
        ensures puts { PutsPart (F.shows folder.old).told result (pieces_at self.old)
            pipe.old pipe.new }
        ensures left { pieces_at self.new ≡ left_of_part result (pieces_at self.old) }
        ensures failed { result ≡ PartPut.Fault → Rose (faults_for (F.shows folder.old).faults k)
            (faults_for (F.shows folder.new).faults k) }
        ensures idle { result ≡ PartPut.NoRoom → folder.new ≡ folder.old }
        ensures later { faults_for (F.shows folder.old).faults k
            ≤ faults_for (F.shows folder.new).faults k }
        ensures others { KeepsOtherFaults (F.shows folder.old).faults (F.shows folder.new).faults k }
    {
        let count = block_len(self.len - self.at);
        if pipe.room() < count {
            return PartPut::NoRoom;
        }
        if !read_piece(
            folder,
            k,
            self.path.as_slice(),
            self.at,
            &mut self.piece,
            count,
        ) {
            return PartPut::Fault;
        }
        pipe.put(&self.piece.as_slice()[..count]);
        self.at += count as u64;
        PartPut::Put
    }
}

/// The length of the next piece, where so many bytes are left.
fn block_len(left: u64) -> usize
    ensures { result ≡ min BLOCK_LEN left }
{
    if left < BLOCK_LEN as u64 {
        left as usize
    } else {
        BLOCK_LEN
    }
}
