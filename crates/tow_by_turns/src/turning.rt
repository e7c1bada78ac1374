//! A turn.

ghost use Rattle.std.specs.Prelude.{◌≡◌, ◌<◌, Some, false};
ghost use Rattle.tow_site.specs.Compiled.{pattern_texts};
ghost use Rattle.tow_walks.specs.Folders.{faults_by, told_by};
ghost use Rattle.tow_states.specs.Known.{Setting};
ghost use Rattle.tow_turns.specs.Data.{base_of, stage_of};
ghost use Rattle.tow_turns.specs.Logging.{LeadsTelling};
ghost use Rattle.tow_turns.specs.Safe.{IsSafe};
ghost use Rattle.tow_by_turns.specs.Conns.{base_in, stage_in};
ghost use Rattle.tow_by_turns.specs.Hands.{IsEquipped, KeepsHands, Serves, log_of};
ghost use Rattle.tow_by_turns.specs.Turns.{KeepsHops, RoundFits, TurnFits};
ghost use Rattle.tow_by_turns.specs.declared.linking.TheConstants.{TURN_LEN};

use crate::conn::Conn;
use crate::going::go;
use crate::hands::Hands;
use crate::linking::{TURN_LEN, read, stop, write};
use crate::need::Need;
use std::alloc::Global;
use std::mem;
use tow_folder::Folder;
use tow_host::{Clock, LogSink};
use tow_model::Role;
use tow_peer::Link;
use tow_turns::{Base, Stage, Turn};

impl<L: Link> Conn<L> {
    /// Serves the connection on under this role, until the link gives or takes nothing, a limit is to be asked or left, another
    /// thread is to go on, enough was moved, or the connection has ended. Takes memory for what requests, their contents and
    /// their answers keep; if it is short, the connection ends.
    pub fn turn<F: Folder, C: Clock, G: LogSink>(
        &mut self,
        alloc: Global,
        role: Role,
        hands: &mut Hands<'_, F, C, G>,
    ) -> Turn
        requires equipped { IsEquipped role hands.old.folder hands.old.clock hands.old.log }
        requires scratch { hands.old.scratch ≡ pattern_texts hands.old.site.now.tree }
        requires safe { IsSafe hands.old.site.now.tree (told_by F.shows hands.old.folder)
            (base_in L.shows self.old) (stage_in self.old) }
        ensures steps { (s : Setting) → Serves F.shows C.table s hands.old → LeadsTelling
            (log_of G.shows hands.old.log) (log_of G.shows hands.new.log) s
            (base_in L.shows self.old) (base_in L.shows self.new) (stage_in self.old)
            (stage_in self.new) }
        ensures fits { TurnFits role hands.old.site.now.tree (told_by F.shows hands.old.folder)
            (faults_by F.shows hands.old.folder self.old.base.number)
            (faults_by F.shows hands.new.folder self.old.base.number) (base_in L.shows self.old)
            (base_in L.shows self.new) (stage_in self.old) (stage_in self.new) result }
        ensures hands { KeepsHands F.shows C.table G.shows role self.old.base.number hands.old
            hands.new }
        ensures hops { KeepsHops self.old.hops self.new.hops (Some result) }
    {
        let stage = mem::replace(&mut self.stage, Stage::Reading);
        let (stage, turn) = take_turn(alloc, &mut self.base, &mut self.hops, stage, role, hands);
        self.stage = stage;
        turn
    }
}

/// Serves a connection on, which stands at this stage.
fn take_turn<L: Link, F: Folder, C: Clock, G: LogSink>(
    alloc: Global,
    base: &mut Base<L>,
    hops: &mut Vec<Role>,
    stage: Stage,
    role: Role,
    hands: &mut Hands<'_, F, C, G>,
) -> (Stage, Turn)
    requires equipped { IsEquipped role hands.old.folder hands.old.clock hands.old.log }
    requires scratch { hands.old.scratch ≡ pattern_texts hands.old.site.now.tree }
    requires safe { IsSafe hands.old.site.now.tree (told_by F.shows hands.old.folder)
        (base_of L.shows base.old) (stage_of stage) }
    ensures steps { (s : Setting) → Serves F.shows C.table s hands.old → LeadsTelling
        (log_of G.shows hands.old.log) (log_of G.shows hands.new.log) s (base_of L.shows base.old)
        (base_of L.shows base.new) (stage_of stage) (stage_of result.0) }
    ensures fits { TurnFits role hands.old.site.now.tree (told_by F.shows hands.old.folder)
        (faults_by F.shows hands.old.folder base.old.number)
        (faults_by F.shows hands.new.folder base.old.number) (base_of L.shows base.old)
        (base_of L.shows base.new) (stage_of stage) (stage_of result.0) result.1 }
    ensures hands { KeepsHands F.shows C.table G.shows role base.old.number hands.old hands.new }
    ensures hops { KeepsHops hops.old hops.new (Some result.1) }
{
    let mut moved = 0usize;
    let mut stage = stage;
    'rounds: loop {
        let (next, turn) = round(alloc, base, hops, stage, role, hands, &mut moved);
        stage = next;
        if let Some(turn) = turn {
            return (stage, turn);
        }
    }
}

/// Takes steps until something is needed, and reads or writes the link if that is it.
fn round<L: Link, F: Folder, C: Clock, G: LogSink>(
    alloc: Global,
    base: &mut Base<L>,
    hops: &mut Vec<Role>,
    stage: Stage,
    role: Role,
    hands: &mut Hands<'_, F, C, G>,
    moved: &mut usize,
) -> (Stage, Option<Turn>)
    requires equipped { IsEquipped role hands.old.folder hands.old.clock hands.old.log }
    requires scratch { hands.old.scratch ≡ pattern_texts hands.old.site.now.tree }
    requires safe { IsSafe hands.old.site.now.tree (told_by F.shows hands.old.folder)
        (base_of L.shows base.old) (stage_of stage) }
    ensures steps { (s : Setting) → Serves F.shows C.table s hands.old → LeadsTelling
        (log_of G.shows hands.old.log) (log_of G.shows hands.new.log) s (base_of L.shows base.old)
        (base_of L.shows base.new) (stage_of stage) (stage_of result.0) }
    ensures fits { RoundFits role hands.old.site.now.tree (told_by F.shows hands.old.folder)
        (faults_by F.shows hands.old.folder base.old.number)
        (faults_by F.shows hands.new.folder base.old.number) (base_of L.shows base.old)
        (base_of L.shows base.new) (stage_of stage) (stage_of result.0) moved.old moved.new result.1 }
    ensures hands { KeepsHands F.shows C.table G.shows role base.old.number hands.old hands.new }
    ensures hops { KeepsHops hops.old hops.new result.1 }
{
    let spent = is_spent(*moved);
    let (stage, need) = go(alloc, base, stage, role, hands, spent);
    let program = hands.site.program();
    match need {
        Need::Stop(turn) => stop(alloc, program, hops, stage, turn),
        Need::Read => read(alloc, program, base, stage, moved),
        Need::Write => write(alloc, program, base, stage, moved),
    }
}

/// Whether a turn that has moved so many bytes has moved enough.
fn is_spent(moved: usize) -> bool
    ensures { result ≡ false → moved < TURN_LEN }
{
    moved >= TURN_LEN
}
