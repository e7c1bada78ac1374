//! The part of a turn that needs no folder.

ghost use Rattle.std.specs.Prelude.{◌≡◌, ◌≢◌, ◌<◌, Bool, List, ℕ};
ghost use Rattle.tow_model.specs.Dates.{first_undated};
ghost use Rattle.tow_model.specs.Texts.{Text};
ghost use Rattle.tow_model.specs.declared.statement.Statement.{Statement};
ghost use Rattle.tow_semantics.specs.Predicates.{AreAmong};
ghost use Rattle.tow_program.specs.Programs.{program_of};
ghost use Rattle.tow_advance.specs.Knowing.{program_patterns};
ghost use Rattle.tow_advance.specs.Needs.{StaysForWorker, need_in};
ghost use Rattle.tow_course.specs.Course.{Advances};
ghost use Rattle.tow_walks.specs.Walks.{BreaksOff, Keeps, NeedsAt};

use std::alloc::Global;
use tow_advance::{Next, advance};
use tow_exchange::{Exchange, Phase};
use tow_model::Role;
use tow_pred::Scratch;
use tow_program::Program;

/// Goes on with the exchange until it needs something. Takes memory as `advance` does.
pub(crate) fn go_on(
    alloc: Global,
    scratch: &mut Scratch<'_>,
    program: &Program,
    exchange: &mut Exchange,
    role: Role,
) -> Next
    requires dated { exchange.old.moment < first_undated }
    requires among { AreAmong (program_patterns program.now) scratch.old }
    ensures need { result ≢ Next.NoMemory → result ≡ need_in program.now role exchange.old }
    ensures phase { NeedsAt result exchange.new.phase }
    ensures advances { result ≢ Next.NoMemory → (tree : List Statement)
        → program.now ≡ program_of tree → Advances tree exchange.old exchange.new }
    ensures breaks { result ≡ Next.NoMemory → (tree : List Statement)
        → program.now ≡ program_of tree → BreaksOff tree exchange.old exchange.new }
    ensures keeps { Keeps program.now exchange.old exchange.new }
    ensures stays { StaysForWorker role exchange.old.stand.mark exchange.old exchange.new }
    ensures scratch { scratch.new ≡ scratch.old }
{
    advance(alloc, scratch, program, exchange, role)
}
