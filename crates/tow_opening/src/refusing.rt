//! A head is refused.

ghost use Rattle.std.specs.Prelude.{◌≡◌, ℕ, List, Option};
ghost use Rattle.tow_heads.specs.declared.requests.NextRequest.TheVariants as next;
ghost use Rattle.tow_model.specs.declared.statement.Statement.{Statement};
ghost use Rattle.tow_semantics.specs.Files.{Files};
ghost use Rattle.tow_states.specs.Known.{Setting};
ghost use Rattle.tow_stages.specs.Stages as stages;
ghost use Rattle.tow_turns.specs.Data.{stage_of};
ghost use Rattle.tow_turns.specs.Nexts.{StepFits};
ghost use Rattle.tow_turns.specs.declared.stage.Then.TheVariants as thens;
ghost use Rattle.tow_opening.specs.Clocks.{IsClockOf};
ghost use Rattle.tow_opening.specs.Heads.{LeadsAt};

use std::alloc::Global;
use tow_answer::refusal;
use tow_host::Clock;
use tow_model::{End, NoMemory, Role};
use tow_turns::{Refusal, Stage};

/// The answer to the head of the next request of this connection, which is refused with this status. Takes memory for it; if it is
/// short, the connection ends.
pub(crate) fn refuse<C: Clock>(
    alloc: Global,
    number: u32,
    begun: u32,
    clock: &mut C,
    status: u16,
) -> Stage
    ensures steps { (s : Setting) (b : stages.Base) → b.number ≡ number → b.begun ≡ begun
        → IsClockOf (C.table clock.old) s.moments
        → LeadsAt (next.Refuse status) s b b (stage_of result) }
    ensures fits { (role : Role) (tree : List Statement) (told : Option Files) (n n' : ℕ)
        (b : stages.Base)
        → StepFits role tree told n n' b b (stage_of Stage.Reading) (stage_of result) thens.On }
    ensures table { C.table clock.new ≡ C.table clock.old }
{
    let moment = clock.at(number, begun.saturating_add(1));
    match refusal(alloc, status, moment) {
        Ok(text) => Stage::Refusing(Refusal { text, put: 0 }),
        Err(NoMemory) => Stage::Ended(End::NoMemory),
    }
}
