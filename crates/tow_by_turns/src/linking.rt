//! What a turn does with the link, and where it stops.

ghost use Rattle.std.specs.Prelude.{◌≡◌, ◌≢◌, ◌<◌, ℕ, Bool, IfSome, List, Option, Some, length};
ghost use Rattle.tow_model.specs.declared.account.Role.{Role};
ghost use Rattle.tow_model.specs.declared.statement.Statement.{Statement};
ghost use Rattle.tow_semantics.specs.Files.{Files};
ghost use Rattle.tow_program.specs.Programs.{program_of};
ghost use Rattle.tow_states.specs.Known.{Setting};
ghost use Rattle.tow_stages.specs.Stages as model;
ghost use Rattle.tow_turns.specs.Cuts.{IsLive, MayBeCut};
ghost use Rattle.tow_turns.specs.Data.{base_of, stage_of};
ghost use Rattle.tow_turns.specs.Nexts.{ReadsLink};
ghost use Rattle.tow_turns.specs.Safe.{IsSafe};
ghost use Rattle.tow_turns.specs.Steps.{Leads};
ghost use Rattle.tow_by_turns.specs.Needs.{IsNeed};
ghost use Rattle.tow_by_turns.specs.Turns.{KeepsHops, RoundFits};
ghost use Rattle.tow_by_turns.specs.declared.linking.TheConstants.{TURN_LEN};
ghost use Rattle.tow_by_turns.specs.declared.need.Need.TheVariants as need;

use std::alloc::Global;
use tow_model::{End, Role};
use tow_peer::{Link, LinkRead, LinkWrite};
use tow_program::Program;
use tow_turns::{Base, Stage, Turn, cut};

/// How many bytes a turn moves over the link before others are to have one.
pub const TURN_LEN: usize = 262_144;

/// How many places for hops a connection has when it goes to the pool: the worker's, that of the loop after it, and main's.
const HOPS_ON: usize = 3;

/// Stops with this answer. A connection that goes to the pool has the places for its next hops; if there is no memory for them, it
/// is cut.
pub(crate) fn stop(
    alloc: Global,
    program: &Program,
    hops: &mut Vec<Role>,
    stage: Stage,
    turn: Turn,
) -> (Stage, Option<Turn>)
    requires pool { turn ≡ Turn.ToPool → MayBeCut (stage_of stage) }
    ensures steps { (s : Setting) (b : model.Base) → program.now ≡ program_of s.tree
        → Leads s b b (stage_of stage) (stage_of result.0) }
    ensures fits { (role : Role) (spent : Bool) (tree : List Statement) (told : Option Files)
        (b : model.Base) (moved : ℕ) → IsSafe tree told b (stage_of stage)
        → IsNeed role spent b (stage_of stage) (need.Stop turn)
        → RoundFits role tree told 0 0 b b (stage_of stage) (stage_of result.0) moved moved result.1 }
    ensures hops { KeepsHops hops.old hops.new result.1 }
{
    let Turn::ToPool = turn else {
        return (stage, Some(turn));
    };
    match hops.reserve(HOPS_ON) {
        Ok(()) => (stage, Some(turn)),
        Err(_memory) => (cut(alloc, program, stage, End::NoMemory), None),
    }
}

/// Reads the link. Takes no memory, but for lines if the link fails.
pub(crate) fn read<L: Link>(
    alloc: Global,
    program: &Program,
    base: &mut Base<L>,
    stage: Stage,
    moved: &mut usize,
) -> (Stage, Option<Turn>)
    requires early { MayBeCut (stage_of stage) }
    requires reads { ReadsLink (base_of L.shows base.old) (stage_of stage) }
    ensures steps { (s : Setting) → program.now ≡ program_of s.tree
        → Leads s (base_of L.shows base.old) (base_of L.shows base.new) (stage_of stage)
        (stage_of result.0) }
    ensures fits { (role : Role) (spent : Bool) (tree : List Statement) (told : Option Files)
        → IsSafe tree told (base_of L.shows base.old) (stage_of stage)
        → IsNeed role spent (base_of L.shows base.old) (stage_of stage) need.Read
        → moved.old < TURN_LEN → RoundFits role tree told 0 0 (base_of L.shows base.old)
        (base_of L.shows base.new) (stage_of stage) (stage_of result.0) moved.old moved.new result.1 }
    ensures idle { IfSome result.1 (λ turn. turn ≡ Turn.Idle) }
{
    match base.port.fill() {
        LinkRead::Got(count) => {
            *moved = moved.saturating_add(count);
            (stage, None)
        }
        LinkRead::End => (stage, None),
        LinkRead::NotYet => (stage, Some(Turn::Idle)),
        LinkRead::Failed => (cut(alloc, program, stage, End::LinkFault), None),
    }
}

/// Writes the link. Takes no memory, but for lines if the link fails.
pub(crate) fn write<L: Link>(
    alloc: Global,
    program: &Program,
    base: &mut Base<L>,
    stage: Stage,
    moved: &mut usize,
) -> (Stage, Option<Turn>)
    requires early { MayBeCut (stage_of stage) }
    requires live { IsLive (stage_of stage) }
    requires some { 0 < length base.old.port.output.items }
    ensures steps { (s : Setting) → program.now ≡ program_of s.tree
        → Leads s (base_of L.shows base.old) (base_of L.shows base.new) (stage_of stage)
        (stage_of result.0) }
    ensures fits { (role : Role) (spent : Bool) (tree : List Statement) (told : Option Files)
        → IsSafe tree told (base_of L.shows base.old) (stage_of stage)
        → IsNeed role spent (base_of L.shows base.old) (stage_of stage) need.Write
        → moved.old < TURN_LEN → RoundFits role tree told 0 0 (base_of L.shows base.old)
        (base_of L.shows base.new) (stage_of stage) (stage_of result.0) moved.old moved.new result.1 }
    ensures idle { IfSome result.1 (λ turn. turn ≡ Turn.Idle) }
{
    match base.port.write() {
        LinkWrite::Took(count) => {
            *moved = moved.saturating_add(count);
            (stage, None)
        }
        LinkWrite::NotYet => (stage, Some(Turn::Idle)),
        LinkWrite::Failed => (cut(alloc, program, stage, End::LinkFault), None),
    }
}
