//! A connection is cut.

ghost use Rattle.std.specs.Prelude.{◌≡◌, ◌≢◌, List, Option, Some};
ghost use Rattle.tow_model.specs.declared.statement.Statement.{Statement};
ghost use Rattle.tow_semantics.specs.Files.{Files};
ghost use Rattle.tow_program.specs.Programs.{program_of};
ghost use Rattle.tow_states.specs.Known.{Setting};
ghost use Rattle.tow_stages.specs.Stages.{Base};
ghost use Rattle.tow_turns.specs.Cuts.{IsLive, MayBeCut};
ghost use Rattle.tow_turns.specs.Data.{stage_of};
ghost use Rattle.tow_turns.specs.Nexts.{end_in};
ghost use Rattle.tow_turns.specs.Safe.{IsSafe};
ghost use Rattle.tow_turns.specs.Steps.{Leads};

use crate::deciding::{ended_after, work_of};
use crate::stage::Stage;
use std::alloc::Global;
use tow_model::End;
use tow_program::Program;

/// The connection is cut: what it was to put is dropped, and the listeners of its exchange are to run. If they run already, they
/// go on, and nothing of the link or the folder is asked any more. Takes memory for the lines of its logs.
pub fn cut(alloc: Global, program: &Program, stage: Stage, end: End) -> Stage
    requires early { MayBeCut (stage_of stage) }
    requires fault { end ≢ End.Done }
    ensures steps { (s : Setting) (b : Base) → program.now ≡ program_of s.tree
        → Leads s b b (stage_of stage) (stage_of result) }
    ensures safe { (tree : List Statement) (told : Option Files) (b : Base)
        → IsSafe tree told b (stage_of stage) → IsSafe tree told b (stage_of result) }
    ensures ends { IsLive (stage_of stage) → end_in (stage_of result) ≡ Some end }
{
    match stage {
        Stage::Reading => Stage::Ended(end),
        Stage::Refusing(_) => Stage::Ended(end),
        Stage::Walking(exchange) => ended_after(work_of(alloc, program, exchange), end),
        Stage::Gathering(asking) => ended_after(work_of(alloc, program, asking.exchange), end),
        Stage::Answering(answering) => ended_after(answering.closing, end),
        Stage::Closing(completing) => Stage::Closing(completing),
        Stage::Ended(before) => Stage::Ended(before),
    }
}
