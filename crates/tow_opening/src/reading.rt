//! What the input goes on with.

ghost use Rattle.std.specs.Prelude.{◌≡◌, ℕ, List, [], Option, length};
ghost use Rattle.tow_message.specs.Heads.{HasNoHead};
ghost use Rattle.tow_model.specs.declared.statement.Statement.{Statement};
ghost use Rattle.tow_semantics.specs.Files.{Files};
ghost use Rattle.tow_semantics.specs.Listeners.{bounds_of};
ghost use Rattle.tow_states.specs.Known.{Setting};
ghost use Rattle.tow_turns.specs.Data.{base_of, stage_of};
ghost use Rattle.tow_turns.specs.Nexts.{StepFits};
ghost use Rattle.tow_turns.specs.Steps.{Leads};
ghost use Rattle.tow_opening.specs.Clocks.{IsClockOf};

use crate::opening::open;
use crate::refusing::refuse;
use std::alloc::Global;
use tow_heads::{NextRequest, next_request};
use tow_host::Clock;
use tow_model::{End, Role};
use tow_peer::Link;
use tow_turns::{Base, Stage, Then};

/// Takes the next head if it has come whole, and opens the exchange of its request, with the places of all its calls of the
/// text's limits; refuses one that is wrong; ends if nothing more is asked. The link is to be read only while no head stands whole
/// in what came. Takes memory for what the request keeps, and for the places; if it is short, the connection ends.
pub fn read_on<L: Link, C: Clock>(
    alloc: Global,
    base: &mut Base<L>,
    limits: usize,
    clock: &mut C,
) -> (Stage, Then)
    requires written { base.old.port.output.items ≡ [] }
    ensures steps { (s : Setting) → limits ≡ length (bounds_of s.tree)
        → IsClockOf (C.table clock.old) s.moments
        → Leads s (base_of L.shows base.old) (base_of L.shows base.new)
        (stage_of Stage.Reading) (stage_of result.0) }
    ensures fits { (role : Role) (tree : List Statement) (told : Option Files) (n n' : ℕ)
        → limits ≡ length (bounds_of tree)
        → StepFits role tree told n n' (base_of L.shows base.old) (base_of L.shows base.new)
        (stage_of Stage.Reading) (stage_of result.0) result.1 }
    ensures head { result.1 ≡ Then.Read → HasNoHead base.new.port.input.items }
    ensures table { C.table clock.new ≡ C.table clock.old }
{
    let peer = base.port.link.peer();
    // The pipe has all its bytes within its room, so that they are no more than the longest head has.
    let _room = base.port.input.room();
    match next_request(alloc, base.port.input.view(), base.port.ended, peer) {
        NextRequest::Request(request, used) => {
            (open(alloc, base, limits, clock, request, used), Then::On)
        }
        NextRequest::More => (Stage::Reading, Then::Read),
        NextRequest::Nothing => (Stage::Ended(End::Done), Then::On),
        NextRequest::Refuse(status) => {
            (
                refuse(alloc, base.number, base.begun, clock, status),
                Then::On,
            )
        }
        NextRequest::NoMemory => (Stage::Ended(End::NoMemory), Then::On),
    }
}
