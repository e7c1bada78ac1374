//! A walk, turn by turn.

ghost use Rattle.std.specs.Prelude.{◌≡◌, ◌≢◌, ◌<◌, List, IfNone, IfSome, None, Some, false, true};
ghost use Rattle.tow_model.specs.Dates.{first_undated};
ghost use Rattle.tow_model.specs.declared.statement.Statement.{Statement};
ghost use Rattle.tow_semantics.specs.Predicates.{AreAmong};
ghost use Rattle.tow_program.specs.Programs.{program_of};
ghost use Rattle.tow_link.specs.Data.{Rose};
ghost use Rattle.tow_advance.specs.Knowing.{program_patterns};
ghost use Rattle.tow_advance.specs.Moves.{walk_left};
ghost use Rattle.tow_advance.specs.Needs.{StaysForWorker, need_in};
ghost use Rattle.tow_course.specs.Course.{Advances};
ghost use Rattle.tow_walks.specs.Folders.{FolderStays, faults_by, may_look, told_by};
ghost use Rattle.tow_walks.specs.Walks.{BreaksOff, HaltsAt, IsCutShort, Keeps, Walks, halt_of};

use crate::advancing::go_on;
use crate::halt::Halt;
use crate::looking::{Looked, look_by};
use std::alloc::Global;
use tow_advance::Next;
use tow_exchange::Exchange;
use tow_folder::Folder;
use tow_model::Role;
use tow_pred::Scratch;
use tow_program::Program;

/// Plays the exchange on until it halts. A page that it needs is looked for in the folder, for the connection of the
/// exchange, and given to it; that is a worker's, who has a folder. So a walk may be split between roles in any way. Takes
/// memory for values, bindings, what actions write, and pages; if it is short, no answer is decided.
pub fn walk<F: Folder>(
    alloc: Global,
    scratch: &mut Scratch<'_>,
    program: &Program,
    exchange: &mut Exchange,
    role: Role,
    folder: &mut Option<F>,
) -> Halt
    requires dated { exchange.old.moment < first_undated }
    requires among { AreAmong (program_patterns program.now) scratch.old }
    ensures halts { HaltsAt result exchange.new.phase }
    ensures need { may_look role folder.old ≡ false → result ≢ Halt.NoMemory
        → result ≡ halt_of (need_in program.now role exchange.old) }
    ensures worker { result ≡ Halt.Worker → may_look role folder.old ≡ false }
    ensures walks { result ≢ Halt.NoMemory → (tree : List Statement)
        → program.now ≡ program_of tree
        → Walks tree (told_by F.shows folder.old) exchange.old exchange.new }
    ensures short { result ≡ Halt.NoMemory → (tree : List Statement)
        → program.now ≡ program_of tree
        → IsCutShort tree (told_by F.shows folder.old) exchange.old exchange.new }
    ensures advances { may_look role folder.old ≡ false → result ≢ Halt.NoMemory
        → (tree : List Statement) → program.now ≡ program_of tree
        → Advances tree exchange.old exchange.new }
    ensures breaks { may_look role folder.old ≡ false → result ≡ Halt.NoMemory
        → (tree : List Statement) → program.now ≡ program_of tree
        → BreaksOff tree exchange.old exchange.new }
    ensures keeps { Keeps program.now exchange.old exchange.new }
    ensures stays { StaysForWorker role exchange.old.stand.mark exchange.old exchange.new }
    ensures asks { may_look role folder.old ≡ false → folder.new ≡ folder.old }
    ensures failed { result ≡ Halt.FolderFault → Rose
        (faults_by F.shows folder.old exchange.old.connection)
        (faults_by F.shows folder.new exchange.old.connection) }
    ensures folder { FolderStays F.shows exchange.old.connection folder.old folder.new }
    ensures scratch { scratch.new ≡ scratch.old }
{
    loop {
        if let Some(halt) = turn(alloc, scratch, program, exchange, role, folder) {
            return halt;
        }
    }
}

/// Goes on with the exchange until it needs something. If that is a page, the page is given to it; else, or if that fails,
/// the walk halts.
fn turn<F: Folder>(
    alloc: Global,
    scratch: &mut Scratch<'_>,
    program: &Program,
    exchange: &mut Exchange,
    role: Role,
    folder: &mut Option<F>,
) -> Option<Halt>
    requires dated { exchange.old.moment < first_undated }
    requires among { AreAmong (program_patterns program.now) scratch.old }
    ensures halts { IfSome result (λ halt. HaltsAt halt exchange.new.phase) }
    ensures need { IfSome result (λ halt. may_look role folder.old ≡ false
        → halt ≢ Halt.NoMemory → halt ≡ halt_of (need_in program.now role exchange.old)) }
    ensures worker { result ≡ Some Halt.Worker → may_look role folder.old ≡ false }
    ensures looks { result ≡ None → may_look role folder.old ≡ true }
    ensures nearer { result ≡ None
        → walk_left program.now exchange.new < walk_left program.now exchange.old }
    ensures walks { result ≢ Some Halt.NoMemory → (tree : List Statement)
        → program.now ≡ program_of tree
        → Walks tree (told_by F.shows folder.old) exchange.old exchange.new }
    ensures short { result ≡ Some Halt.NoMemory → (tree : List Statement)
        → program.now ≡ program_of tree
        → IsCutShort tree (told_by F.shows folder.old) exchange.old exchange.new }
    ensures advances { may_look role folder.old ≡ false → result ≢ Some Halt.NoMemory
        → (tree : List Statement) → program.now ≡ program_of tree
        → Advances tree exchange.old exchange.new }
    ensures breaks { may_look role folder.old ≡ false → result ≡ Some Halt.NoMemory
        → (tree : List Statement) → program.now ≡ program_of tree
        → BreaksOff tree exchange.old exchange.new }
    ensures keeps { Keeps program.now exchange.old exchange.new }
    ensures stays { StaysForWorker role exchange.old.stand.mark exchange.old exchange.new }
    ensures asks { may_look role folder.old ≡ false → folder.new ≡ folder.old }
    ensures failed { result ≡ Some Halt.FolderFault → Rose
        (faults_by F.shows folder.old exchange.old.connection)
        (faults_by F.shows folder.new exchange.old.connection) }
    ensures folder { FolderStays F.shows exchange.old.connection folder.old folder.new }
    ensures scratch { scratch.new ≡ scratch.old }
{
    match go_on(alloc, scratch, program, exchange, role) {
        Next::Stop => Some(Halt::Stopped),
        Next::AskLimit(limit) => Some(Halt::Limit(limit)),
        Next::NeedContent => Some(Halt::Content),
        Next::NeedFolder { location, listing } => {
            match look_by(alloc, exchange, role, folder, &location, listing) {
                Looked::Given => None,
                Looked::ForWorker => Some(Halt::Worker),
                Looked::FolderFault => Some(Halt::FolderFault),
                Looked::NoMemory => Some(Halt::NoMemory),
            }
        }
        Next::NeedWorker => Some(Halt::Worker),
        Next::NoMemory => Some(Halt::NoMemory),
    }
}
