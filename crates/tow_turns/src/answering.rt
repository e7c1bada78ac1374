//! The answer of an exchange is put.

ghost use Rattle.std.specs.Prelude.{◌<◌, ◌≡◌, ◌≢◌, ◌≤◌, List, Some, length, true};
ghost use Rattle.tow_model.specs.declared.statement.Statement.{Statement};
ghost use Rattle.tow_semantics.specs.Files.{Files};
ghost use Rattle.tow_link.specs.Data.{Rose};
ghost use Rattle.tow_sending.specs.Pieces.{Puts, left_after, room_of};
ghost use Rattle.tow_walks.specs.Folders.{FolderStays, faults_by, told_by};
ghost use Rattle.tow_states.specs.Known.{Setting};
ghost use Rattle.tow_turns.specs.Data.{base_of, stage_of};
ghost use Rattle.tow_turns.specs.Folders.{HasFolder, HasPartsIn, IsFolderOf, told_under};
ghost use Rattle.tow_turns.specs.Nexts.{StepFits};
ghost use Rattle.tow_turns.specs.Puttings.{HasPut, KeepsAnswer, with_output};
ghost use Rattle.tow_turns.specs.Roles.{IsLoop};
ghost use Rattle.tow_turns.specs.Safe.{IsPuttable};
ghost use Rattle.tow_turns.specs.Steps.{Leads};

use crate::base::Base;
use crate::deciding::ended_after;
use crate::dropping::leave_on;
use crate::role::is_loop;
use crate::stage::{Answering, Stage, Then};
use crate::turn::Turn;
use tow_folder::Folder;
use tow_model::{End, Role};
use tow_peer::Link;
use tow_pipe::Pipe;
use tow_sending::{Sending, Sent};

/// Puts the answer as far as there is room, and a file's pieces as a worker. Once all of it is put and the link took it, the
/// exchange completes. Takes no memory.
pub fn answer_on<L: Link, F: Folder>(
    base: &mut Base<L>,
    answering: Answering,
    role: Role,
    folder: &mut Option<F>,
) -> (Stage, Then)
    requires equipped { HasFolder role folder.old }
    requires puttable { IsPuttable (told_by F.shows folder.old) (base_of L.shows base.old)
        answering.closing answering.sending answering.drain }
    ensures steps { (s : Setting) → IsFolderOf F.shows folder.old s.files
        → Leads s (base_of L.shows base.old) (base_of L.shows base.new)
        (stage_of (Stage.Answering answering)) (stage_of result.0) }
    ensures fits { (tree : List Statement) → StepFits role tree (told_by F.shows folder.old)
        (faults_by F.shows folder.old base.old.number) (faults_by F.shows folder.new base.old.number)
        (base_of L.shows base.old) (base_of L.shows base.new)
        (stage_of (Stage.Answering answering)) (stage_of result.0) result.1 }
    ensures folder { FolderStays F.shows base.old.number folder.old folder.new }
    ensures idle { IsLoop role → folder.new ≡ folder.old }
{
    let (answering, sent) = put_some(base, answering, role, folder);
    match sent {
        Sent::Piece | Sent::Full => (Stage::Answering(answering), Then::Write),
        Sent::NeedWorker => (Stage::Answering(answering), Then::Stop(Turn::ToPool)),
        Sent::FolderFault => (ended_after(answering.closing, End::FolderFault), Then::On),
        Sent::Whole => leave_on(base, answering, role),
    }
}

/// Puts pieces as long as there is room for them; an I/O loop stops at bytes that it can write. Takes no memory.
fn put_some<L: Link, F: Folder>(
    base: &mut Base<L>,
    answering: Answering,
    role: Role,
    folder: &mut Option<F>,
) -> (Answering, Sent)
    requires equipped { HasFolder role folder.old }
    requires puttable { IsPuttable (told_by F.shows folder.old) (base_of L.shows base.old)
        answering.closing answering.sending answering.drain }
    ensures steps { (s : Setting) → IsFolderOf F.shows folder.old s.files
        → Leads s (base_of L.shows base.old) (base_of L.shows base.new)
        (stage_of (Stage.Answering answering)) (stage_of (Stage.Answering result.0)) }
    ensures puttable { IsPuttable (told_by F.shows folder.old) (base_of L.shows base.new)
        result.0.closing result.0.sending result.0.drain }
    ensures put { HasPut role result.1 result.0.sending base.new.port.output }
    ensures grows { length base.old.port.output.items ≤ length base.new.port.output.items }
    ensures base { base_of L.shows base.new
        ≡ with_output base.new.port.output (base_of L.shows base.old) }
    ensures fault { result.1 ≡ Sent.FolderFault → Rose (faults_by F.shows folder.old base.old.number)
        (faults_by F.shows folder.new base.old.number) }
    ensures folder { FolderStays F.shows base.old.number folder.old folder.new }
    ensures idle { IsLoop role → folder.new ≡ folder.old }
{
    let mut answering = answering;
    'pieces: loop {
        let (next, sent) = put_next(base, answering, role, folder);
        answering = next;
        let Sent::Piece = sent else {
            return (answering, sent);
        };
        if is_to_write(role, base.port.output.len()) {
            return (answering, sent);
        }
    }
}

/// Whether an I/O loop is to write what stands in the pipe of output, of so many bytes.
fn is_to_write(role: Role, len: usize) -> bool
    ensures { result ≡ true → IsLoop role × (0 < len) }
{
    is_loop(role) && len > 0
}

/// Puts the next piece, if there is one, and tells what became of it. Takes no memory.
fn put_next<L: Link, F: Folder>(
    base: &mut Base<L>,
    answering: Answering,
    role: Role,
    folder: &mut Option<F>,
) -> (Answering, Sent)
    requires parts { HasPartsIn (told_by F.shows folder.old) answering.sending }
    ensures steps { (s : Setting) → IsFolderOf F.shows folder.old s.files
        → Leads s (base_of L.shows base.old) (base_of L.shows base.new)
        (stage_of (Stage.Answering answering)) (stage_of (Stage.Answering result.0)) }
    ensures parts { HasPartsIn (told_by F.shows folder.old) result.0.sending }
    ensures tells { HasFolder role folder.old → result.1 ≢ Sent.FolderFault
        → result.1 ≡ told_under role (room_of base.old.port.output) answering.sending }
    ensures left { result.0.sending ≡ left_after result.1 answering.sending }
    ensures rest { KeepsAnswer answering result.0 }
    ensures base { base_of L.shows base.new
        ≡ with_output base.new.port.output (base_of L.shows base.old) }
    ensures full { result.1 ≡ Sent.Full → base.new.port.output ≡ base.old.port.output }
    ensures grows { length base.old.port.output.items ≤ length base.new.port.output.items }
    ensures fault { result.1 ≡ Sent.FolderFault → Rose (faults_by F.shows folder.old base.old.number)
        (faults_by F.shows folder.new base.old.number) }
    ensures folder { FolderStays F.shows base.old.number folder.old folder.new }
    ensures idle { IsLoop role → folder.new ≡ folder.old }
{
    let mut answering = answering;
    let sent = put(
        &mut base.port.output,
        &mut answering.sending,
        base.number,
        role,
        folder,
    );
    (answering, sent)
}

/// Puts the next piece; a worker with a folder puts a file's. Takes no memory.
fn put<F: Folder>(
    pipe: &mut Pipe,
    sending: &mut Sending,
    k: u32,
    role: Role,
    folder: &mut Option<F>,
) -> Sent
    requires parts { HasPartsIn (told_by F.shows folder.old) sending.old }
    ensures puts { (files : Files) → IsFolderOf F.shows folder.old files
        → Puts (Some files) result sending.old pipe.old pipe.new }
    ensures tells { HasFolder role folder.old → result ≢ Sent.FolderFault
        → result ≡ told_under role (room_of pipe.old) sending.old }
    ensures left { sending.new ≡ left_after result sending.old }
    ensures full { result ≡ Sent.Full → pipe.new ≡ pipe.old }
    ensures grows { length pipe.old.items ≤ length pipe.new.items }
    ensures capacity { pipe.new.capacity ≡ pipe.old.capacity }
    ensures fault { result ≡ Sent.FolderFault → Rose (faults_by F.shows folder.old k)
        (faults_by F.shows folder.new k) }
    ensures folder { FolderStays F.shows k folder.old folder.new }
    ensures idle { IsLoop role → folder.new ≡ folder.old }
{
    if is_loop(role) {
        return sending.put(pipe);
    }
    match folder {
        Some(folder) => sending.put_file(pipe, folder, k),
        None => sending.put(pipe),
    }
}
