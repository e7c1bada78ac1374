//! An answer under way.

ghost use Rattle.std.specs.Prelude.{◌≡◌, ◌≢◌, ◌≤◌, true, false, Option, IfOk, [], if◌then◌else◌};
ghost use Rattle.std.specs.Option.{ForSome};
ghost use Rattle.tow_faults.specs.Faults.{KeepsOtherFaults, faults_for};
ghost use Rattle.tow_link.specs.Data.{Rose};
ghost use Rattle.tow_semantics.specs.Files.{Files};
ghost use Rattle.tow_semantics.specs.Values.{has_no_content};
ghost use Rattle.tow_sending.specs.Bodies.{body_pieces, pieces_in};
ghost use Rattle.tow_sending.specs.Parts.{PutsPart, left_of_part};
ghost use Rattle.tow_sending.specs.Pieces.{
  content_pieces,
  HasParts,
  IsAskable,
  Puts,
  PutsText,
  first_own,
  gone,
  left_after,
  left_if,
  next_of,
  pieces_of,
  reads_file,
  room_of,
  told_of_file,
  told_of_put,
};

use crate::body::{Body, put_block};
use crate::rest::Rest;
use crate::sent::{Next, PartPut, Sent};
use std::alloc::Global;
use std::marker::Model;
use tow_folder::Folder;
use tow_model::{Answer, Choice, NoMemory, Request};
use tow_pipe::Pipe;
use tow_render::head;

/// An answer of which some pieces are put. Contracts see those that are left.
#[derive(Debug, Drop)]
pub struct Sending {
    head: Rest,
    body: Body,
}

impl Model for Sending {
    ghost use Rattle.std.specs.Prelude.{List};
    ghost use Rattle.tow_sending.specs.Pieces.{Piece};
    ghost use Rattle.tow_sending.specs.Bodies.{pieces_in};

    ghost Value = { List Piece };

    ghost view = { λ s. pieces_in s.head s.body };
}

impl Sending {
    /// All of the answer to the request. Takes memory for its head, and for the largest piece of a file that it sends;
    /// the other calls take none.
    pub fn new(alloc: Global, request: &Request, answer: Answer) -> Result<Sending, NoMemory>
        requires { IsAskable answer.choice }
        ensures { IfOk result (λ s. s ≡ pieces_of request.now answer) }
    {
        let head = Rest::new(head(alloc, answer.status, &answer.fields)?);
        let body = body_of(alloc, request, answer.status, answer.choice)?;
        Ok(Sending { head, body })
    }

    /// Puts the next piece, unless it is a file's. A piece is put whole or not at all.
    pub fn put(&mut self, pipe: &mut Pipe) -> Sent
        ensures tells { result ≡ told_of_put (room_of pipe.old) self.old }
        ensures left { self.new ≡ left_after result self.old }
        ensures puts { (told : Option Files) → Puts told result self.old pipe.old pipe.new }
    {
        match self.next() {
            Next::Nothing => Sent::Whole,
            Next::Own => self.put_own(pipe),
            Next::File => Sent::NeedWorker,
        }
    }

    /// Puts the next piece; a file's is read from the folder for connection `k`. A piece is put whole or not at all. A
    /// folder that tells has the bytes that are left of the file.
    pub fn put_file<F: Folder>(&mut self, pipe: &mut Pipe, folder: &mut F, k: u32) -> Sent
        requires { ForSome (F.shows folder.old).told (λ files. HasParts files self.old) }
        ensures tells { result ≢ Sent.FolderFault → result ≡ told_of_file (room_of pipe.old) self.old }
        ensures left { self.new ≡ left_after result self.old }
        ensures puts { Puts (F.shows folder.old).told result self.old pipe.old pipe.new }
        ensures fault { result ≡ Sent.FolderFault
            → Rose (faults_for (F.shows folder.old).faults k)
            (faults_for (F.shows folder.new).faults k) }
        ensures reads { result ≡ Sent.FolderFault → reads_file (room_of pipe.old) self.old ≡ true }
        ensures idle { reads_file (room_of pipe.old) self.old ≡ false → folder.new ≡ folder.old }
        ensures told { (F.shows folder.new).told ≡ (F.shows folder.old).told }
        ensures later { faults_for (F.shows folder.old).faults k
            ≤ faults_for (F.shows folder.new).faults k }
        ensures others { KeepsOtherFaults (F.shows folder.old).faults (F.shows folder.new).faults k }
    {
        match self.next() {
            Next::Nothing => Sent::Whole,
            Next::Own => self.put_own(pipe),
            Next::File => match self.put_part(pipe, folder, k) {
                PartPut::Put => self.after_piece(),
                PartPut::NoRoom => Sent::Full,
                PartPut::Fault => Sent::FolderFault,
            },
        }
    }

    /// What is to be put next.
    fn next(&self) -> Next
        ensures { result ≡ next_of self.now }
    {
        if self.head.is_empty() {
            self.body.next()
        } else {
            Next::Own
        }
    }

    /// Puts the next piece, which the answer has itself.
    fn put_own(&mut self, pipe: &mut Pipe) -> Sent
        requires { next_of self.old ≡ Next.Own }
        ensures tells { result ≡ told_of_file (room_of pipe.old) self.old }
        ensures left { self.new ≡ left_after result self.old }
        ensures puts { (told : Option Files) → Puts told result self.old pipe.old pipe.new }
    {
        let done = put_front(&mut self.head, &mut self.body, pipe);
        if done { self.after_piece() } else { Sent::Full }
    }

    /// Reads the next piece, which is a file's, and puts it, if the pipe has room for it.
    fn put_part<F: Folder>(&mut self, pipe: &mut Pipe, folder: &mut F, k: u32) -> PartPut
        requires some { next_of self.old ≡ Next.File }
        requires there { ForSome (F.shows folder.old).told (λ files. HasParts files self.old) }
        ensures told { (F.shows folder.new).told ≡ (F.shows folder.old).told }
        ensures puts { PutsPart (F.shows folder.old).told result self.old pipe.old pipe.new }
        ensures left { self.new ≡ left_of_part result self.old }
        ensures failed { result ≡ PartPut.Fault → Rose (faults_for (F.shows folder.old).faults k)
            (faults_for (F.shows folder.new).faults k) }
        ensures idle { result ≡ PartPut.NoRoom → folder.new ≡ folder.old }
        ensures later { faults_for (F.shows folder.old).faults k
            ≤ faults_for (F.shows folder.new).faults k }
        ensures others { KeepsOtherFaults (F.shows folder.old).faults (F.shows folder.new).faults k }
    {
        self.body.put_part(pipe, folder, k)
    }

    /// What is told after a piece was put.
    fn after_piece(&self) -> Sent
        ensures { result ≡ gone self.now }
    {
        match self.next() {
            Next::Nothing => Sent::Whole,
            Next::Own | Next::File => Sent::Piece,
        }
    }
}

/// Puts the next piece of a head and a content, which the answer has itself, if the pipe has room for it.
fn put_front(head: &mut Rest, body: &mut Body, pipe: &mut Pipe) -> bool
    requires { next_of (pieces_in head.old body.old) ≡ Next.Own }
    ensures puts { PutsText (first_own (pieces_in head.old body.old)) result pipe.old pipe.new }
    ensures left { pieces_in head.new body.new ≡ left_if result (pieces_in head.old body.old) }
{
    if head.is_empty() {
        return body.put_own(pipe);
    }
    put_block(head, pipe)
}

/// The content that an answer with this status sends. Takes memory for the largest piece of a file.
fn body_of(alloc: Global, request: &Request, status: u16, choice: Choice) -> Result<Body, NoMemory>
    requires { IsAskable choice }
    ensures { IfOk result (λ b. body_pieces b ≡ (if has_no_content request.now status then []
        else content_pieces request.now.version choice)) }
{
    if has_no_content(request, status) {
        return Ok(Body::Nothing);
    }
    Body::new(alloc, request.version, choice)
}

/// Whether an answer with this status has no content: to HEAD, 204 and 304 (RFC 9110, sections 9.3.2, 15.3.5 and
/// 15.4.5).
fn has_no_content(request: &Request, status: u16) -> bool
    ensures { result ≡ has_no_content request.now status }
{
    request.method.as_slice() == b"HEAD".as_slice() || status == 204 || status == 304
}
