//! The steps of a turn, up to what is needed.

ghost use Rattle.std.specs.Prelude.{◌≡◌, ◌↔◌, IsTrue, Option, true};
ghost use Rattle.tow_site.specs.Compiled.{pattern_texts};
ghost use Rattle.tow_walks.specs.Folders.{faults_by, told_by};
ghost use Rattle.tow_states.specs.Known.{Setting};
ghost use Rattle.tow_turns.specs.Cuts.{IsLive};
ghost use Rattle.tow_turns.specs.Data.{base_of, stage_of};
ghost use Rattle.tow_turns.specs.Logging.{LeadsTelling};
ghost use Rattle.tow_turns.specs.Safe.{IsSafe};
ghost use Rattle.tow_by_turns.specs.Hands.{IsEquipped, KeepsHands, Serves, log_of};
ghost use Rattle.tow_by_turns.specs.Needs.{Goes, IsFirst};

use crate::hands::Hands;
use crate::need::{Need, need_of};
use crate::stepping::step;
use std::alloc::Global;
use tow_folder::Folder;
use tow_host::{Clock, LogSink};
use tow_model::Role;
use tow_peer::Link;
use tow_turns::{Base, Stage, Turn, is_loop};

/// Takes steps until something is needed; `spent` says that the turn has moved enough over the link. Takes memory as the steps do.
pub(crate) fn go<L: Link, F: Folder, C: Clock, G: LogSink>(
    alloc: Global,
    base: &mut Base<L>,
    stage: Stage,
    role: Role,
    hands: &mut Hands<'_, F, C, G>,
    spent: bool,
) -> (Stage, Need)
    requires equipped { IsEquipped role hands.old.folder hands.old.clock hands.old.log }
    requires scratch { hands.old.scratch ≡ pattern_texts hands.old.site.now.tree }
    requires safe { IsSafe hands.old.site.now.tree (told_by F.shows hands.old.folder)
        (base_of L.shows base.old) (stage_of stage) }
    ensures steps { (s : Setting) → Serves F.shows C.table s hands.old → LeadsTelling
        (log_of G.shows hands.old.log) (log_of G.shows hands.new.log) s (base_of L.shows base.old)
        (base_of L.shows base.new) (stage_of stage) (stage_of result.0) }
    ensures goes { Goes role spent hands.old.site.now.tree (told_by F.shows hands.old.folder)
        (faults_by F.shows hands.old.folder base.old.number)
        (faults_by F.shows hands.new.folder base.old.number) (base_of L.shows base.old)
        (base_of L.shows base.new) (stage_of stage) (stage_of result.0) result.1 }
    ensures hands { KeepsHands F.shows C.table G.shows role base.old.number hands.old hands.new }
{
    let mut stage = stage;
    'steps: loop {
        if let Some(need) = first_need(base, &stage, role, spent) {
            return (stage, need);
        }
        let (next, then) = step(alloc, base, stage, role, hands);
        stage = next;
        if let Some(need) = need_of(then, role) {
            return (stage, need);
        }
    }
}

/// What an I/O loop does before a step, unless listeners run or the connection has ended: it stops if enough was moved, and writes
/// what was put.
fn first_need<L: Link>(base: &Base<L>, stage: &Stage, role: Role, spent: bool) -> Option<Need>
    ensures { IsFirst role spent (base_of L.shows base.now) (stage_of stage.now) result }
{
    if !is_loop(role) || !is_live(stage) {
        return None;
    }
    if spent {
        return Some(Need::Stop(Turn::Spent));
    }
    if base.port.output.len() > 0 {
        return Some(Need::Write);
    }
    None
}

/// Whether neither listeners run nor the connection has ended.
fn is_live(stage: &Stage) -> bool
    ensures { IsTrue result ↔ IsLive (stage_of stage.now) }
{
    !matches!(stage, Stage::Closing(_) | Stage::Ended(_))
}
