//! An exchange walks through its text.

ghost use Rattle.std.specs.Prelude.{◌≡◌, ◌<◌, List, false};
ghost use Rattle.tow_model.specs.Dates.{first_undated};
ghost use Rattle.tow_model.specs.declared.statement.Statement.{Statement};
ghost use Rattle.tow_semantics.specs.Predicates.{AreAmong};
ghost use Rattle.tow_program.specs.Programs.{program_of};
ghost use Rattle.tow_advance.specs.Knowing.{program_patterns};
ghost use Rattle.tow_advance.specs.Needs.{need_in};
ghost use Rattle.tow_sending.specs.Pieces.{IsAskable};
ghost use Rattle.tow_walks.specs.Folders.{FolderStays, faults_by, may_look, told_by};
ghost use Rattle.tow_walks.specs.Sendable.{IsSendable};
ghost use Rattle.tow_walks.specs.Walks.{halt_of};
ghost use Rattle.tow_walks.specs.declared.halt.Halt.TheVariants as halt;
ghost use Rattle.tow_states.specs.Known.{Setting};
ghost use Rattle.tow_stages.specs.Stages as model;
ghost use Rattle.tow_turns.specs.Data.{stage_of};
ghost use Rattle.tow_turns.specs.Folders.{HasFolder, IsFolderOf};
ghost use Rattle.tow_turns.specs.Nexts.{StepFits};
ghost use Rattle.tow_turns.specs.Safe.{IsSafe};
ghost use Rattle.tow_turns.specs.Steps.{Leads};
ghost use Rattle.tow_serving.specs.Answering.{AnswersOrWaits};
ghost use Rattle.tow_serving.specs.Texts.{IsText};

use std::alloc::Global;
use tow_answer::ContentUse;
use tow_exchange::{Exchange, Phase};
use tow_folder::Folder;
use tow_model::{End, Role};
use tow_pred::Scratch;
use tow_program::Program;
use tow_turns::{Stage, Then, Turn, answer, ask, ended_after, work_of};
use tow_walks::{Halt, walk};

/// Plays the exchange on. If it stops, its answer is made; if it waits for its content, that is gathered; if the folder fails or
/// the memory is short, its listeners are to run. Takes memory as `walk` does, and for the answer.
pub fn walk_on<F: Folder>(
    alloc: Global,
    program: &Program,
    scratch: &mut Scratch<'_>,
    exchange: Exchange,
    role: Role,
    folder: &mut Option<F>,
) -> (Stage, Then)
    requires text { IsText program.now }
    requires among { AreAmong (program_patterns program.now) scratch.old }
    requires dated { exchange.moment < first_undated }
    requires sendable { IsSendable (told_by F.shows folder.old) exchange }
    requires equipped { HasFolder role folder.old }
    ensures steps { (s : Setting) (b : model.Base) → program.now ≡ program_of s.tree
        → IsFolderOf F.shows folder.old s.files
        → Leads s b b (stage_of (Stage.Walking exchange)) (stage_of result.0) }
    ensures fits { (tree : List Statement) (b : model.Base) → program.now ≡ program_of tree
        → IsSafe tree (told_by F.shows folder.old) b (stage_of (Stage.Walking exchange))
        → StepFits role tree (told_by F.shows folder.old) (faults_by F.shows folder.old b.number)
        (faults_by F.shows folder.new b.number) b b (stage_of (Stage.Walking exchange))
        (stage_of result.0) result.1 }
    ensures need { result.1 ≡ Then.Stop Turn.ToPool
        → halt_of (need_in program.now role exchange) ≡ halt.Worker }
    ensures folder { FolderStays F.shows exchange.connection folder.old folder.new }
    ensures idle { may_look role folder.old ≡ false → folder.new ≡ folder.old }
    ensures scratch { scratch.new ≡ scratch.old }
{
    let mut exchange = exchange;
    match walk(alloc, scratch, program, &mut exchange, role, folder) {
        Halt::Stopped | Halt::Worker => answer_or_wait(alloc, program, exchange),
        Halt::Limit(limit) => (Stage::Walking(exchange), Then::Stop(Turn::AskLimit(limit))),
        Halt::Content => (ask(alloc, exchange), Then::On),
        Halt::FolderFault => {
            let closing = work_of(alloc, program, exchange);
            (ended_after(closing, End::FolderFault), Then::On)
        }
        Halt::NoMemory => {
            let closing = work_of(alloc, program, exchange);
            (ended_after(closing, End::NoMemory), Then::On)
        }
    }
}

/// If the exchange has stopped, its answer is made; else a worker goes on with it. Takes memory for the answer.
fn answer_or_wait(alloc: Global, program: &Program, exchange: Exchange) -> (Stage, Then)
    requires dated { exchange.moment < first_undated }
    requires askable { IsAskable exchange.stand.state.choice }
    ensures { AnswersOrWaits program.now exchange (stage_of result.0) result.1 }
{
    if matches!(exchange.phase(), Phase::Stopped) {
        let stage = answer(alloc, program, exchange, ContentUse::Unasked);
        return (stage, Then::On);
    }
    (Stage::Walking(exchange), Then::Stop(Turn::ToPool))
}
