//! One step of a turn.

ghost use Rattle.std.specs.Prelude.{◌≡◌, [], ◌<◌};
ghost use Rattle.tow_site.specs.Compiled.{pattern_texts};
ghost use Rattle.tow_walks.specs.Folders.{faults_by, told_by};
ghost use Rattle.tow_states.specs.Known.{Setting};
ghost use Rattle.tow_turns.specs.Data.{base_of, stage_of};
ghost use Rattle.tow_turns.specs.Logging.{LeadsTelling};
ghost use Rattle.tow_turns.specs.Nexts.{StepFits};
ghost use Rattle.tow_turns.specs.Safe.{IsSafe};
ghost use Rattle.tow_by_turns.specs.Hands.{IsEquipped, KeepsHands, Serves, log_of};
ghost use Rattle.tow_by_turns.specs.Needs.{IsWrittenFor, end_told};

use crate::hands::Hands;
use std::alloc::Global;
use tow_folder::Folder;
use tow_host::{Clock, LogSink};
use tow_model::{End, Role};
use tow_opening::read_on;
use tow_peer::Link;
use tow_serving::{gather_on, walk_on};
use tow_turns::{Base, Completing, Stage, Then, Turn, answer_on, close_on, is_loop, refuse_on};

/// Takes one step, which does not touch the link: each stage has its own. Takes memory as the steps do.
pub(crate) fn step<L: Link, F: Folder, C: Clock, G: LogSink>(
    alloc: Global,
    base: &mut Base<L>,
    stage: Stage,
    role: Role,
    hands: &mut Hands<'_, F, C, G>,
) -> (Stage, Then)
    requires equipped { IsEquipped role hands.old.folder hands.old.clock hands.old.log }
    requires scratch { hands.old.scratch ≡ pattern_texts hands.old.site.now.tree }
    requires safe { IsSafe hands.old.site.now.tree (told_by F.shows hands.old.folder)
        (base_of L.shows base.old) (stage_of stage) }
    requires written { IsWrittenFor role (base_of L.shows base.old) (stage_of stage) }
    ensures steps { (s : Setting) → Serves F.shows C.table s hands.old → LeadsTelling
        (log_of G.shows hands.old.log) (log_of G.shows hands.new.log) s (base_of L.shows base.old)
        (base_of L.shows base.new) (stage_of stage) (stage_of result.0) }
    ensures fits { StepFits role hands.old.site.now.tree (told_by F.shows hands.old.folder)
        (faults_by F.shows hands.old.folder base.old.number)
        (faults_by F.shows hands.new.folder base.old.number) (base_of L.shows base.old)
        (base_of L.shows base.new) (stage_of stage) (stage_of result.0) result.1 }
    ensures hands { KeepsHands F.shows C.table G.shows role base.old.number hands.old hands.new }
{
    match stage {
        Stage::Reading => read(alloc, base, role, hands),
        Stage::Refusing(refusal) => refuse_on(base, refusal),
        Stage::Walking(exchange) => walk_on(
            alloc,
            hands.site.program(),
            &mut hands.scratch,
            exchange,
            role,
            &mut hands.folder,
        ),
        Stage::Gathering(asking) => gather_on(alloc, base, hands.site.program(), asking),
        Stage::Answering(answering) => answer_on(base, answering, role, &mut hands.folder),
        Stage::Closing(completing) => close(base, completing, role, hands),
        Stage::Ended(end) => (Stage::Ended(end), end_by(role, end)),
    }
}

/// Reads the next head, which is an I/O loop's.
fn read<L: Link, F: Folder, C: Clock, G: LogSink>(
    alloc: Global,
    base: &mut Base<L>,
    role: Role,
    hands: &mut Hands<'_, F, C, G>,
) -> (Stage, Then)
    requires equipped { IsEquipped role hands.old.folder hands.old.clock hands.old.log }
    requires written { base.old.port.output.items ≡ [] }
    ensures steps { (s : Setting) → Serves F.shows C.table s hands.old → LeadsTelling
        (log_of G.shows hands.old.log) (log_of G.shows hands.new.log) s (base_of L.shows base.old)
        (base_of L.shows base.new) (stage_of Stage.Reading) (stage_of result.0) }
    ensures fits { StepFits role hands.old.site.now.tree (told_by F.shows hands.old.folder)
        (faults_by F.shows hands.old.folder base.old.number)
        (faults_by F.shows hands.new.folder base.old.number) (base_of L.shows base.old)
        (base_of L.shows base.new) (stage_of Stage.Reading) (stage_of result.0) result.1 }
    ensures hands { KeepsHands F.shows C.table G.shows role base.old.number hands.old hands.new }
{
    if !is_loop(role) {
        return (Stage::Reading, Then::Stop(Turn::ToLoop));
    }
    let limits = hands.site.limits().len();
    match &mut hands.clock {
        Some(clock) => read_on(alloc, base, limits, clock),
        None => unreachable!(),
    }
}

/// Runs listeners, which is an I/O loop's.
fn close<L: Link, F: Folder, C: Clock, G: LogSink>(
    base: &mut Base<L>,
    completing: Completing,
    role: Role,
    hands: &mut Hands<'_, F, C, G>,
) -> (Stage, Then)
    requires equipped { IsEquipped role hands.old.folder hands.old.clock hands.old.log }
    requires safe { IsSafe hands.old.site.now.tree (told_by F.shows hands.old.folder)
        (base_of L.shows base.old) (stage_of (Stage.Closing completing)) }
    ensures steps { (s : Setting) → Serves F.shows C.table s hands.old → LeadsTelling
        (log_of G.shows hands.old.log) (log_of G.shows hands.new.log) s (base_of L.shows base.old)
        (base_of L.shows base.new) (stage_of (Stage.Closing completing)) (stage_of result.0) }
    ensures fits { StepFits role hands.old.site.now.tree (told_by F.shows hands.old.folder)
        (faults_by F.shows hands.old.folder base.old.number)
        (faults_by F.shows hands.new.folder base.old.number) (base_of L.shows base.old)
        (base_of L.shows base.new) (stage_of (Stage.Closing completing)) (stage_of result.0) result.1 }
    ensures hands { KeepsHands F.shows C.table G.shows role base.old.number hands.old hands.new }
{
    if !is_loop(role) {
        return (Stage::Closing(completing), Then::Stop(Turn::ToLoop));
    }
    match &mut hands.log {
        Some(log) => close_on(base, completing, log),
        None => unreachable!(),
    }
}

/// A connection that has ended says so to its I/O loop.
fn end_by(role: Role, end: End) -> Then
    ensures { result ≡ end_told role end }
{
    if is_loop(role) {
        Then::Stop(Turn::Ended(end))
    } else {
        Then::Stop(Turn::ToLoop)
    }
}
