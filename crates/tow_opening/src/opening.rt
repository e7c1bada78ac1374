//! The exchange of a request opens.

ghost use Rattle.std.specs.Prelude.{◌≡◌, ◌≤◌, ◌<◌, ◌*◌, ℕ, suc, List, [], None, Option, IfSome, length};
ghost use Rattle.tow_heads.specs.declared.requests.NextRequest.TheVariants as next;
ghost use Rattle.tow_model.specs.declared.statement.Statement.{Statement};
ghost use Rattle.tow_semantics.specs.Files.{Files};
ghost use Rattle.tow_semantics.specs.Listeners.{bounds_of};
ghost use Rattle.tow_states.specs.Known.{Setting};
ghost use Rattle.tow_turns.specs.Data.{base_of, stage_of};
ghost use Rattle.tow_turns.specs.Nexts.{StepFits};
ghost use Rattle.tow_turns.specs.declared.stage.Then.TheVariants as thens;
ghost use Rattle.tow_opening.specs.Clocks.{IsClockOf};
ghost use Rattle.tow_opening.specs.Heads.{LeadsAt};

use std::alloc::Global;
use tow_exchange::Exchange;
use tow_host::Clock;
use tow_model::limits::MAX_RESTARTS;
use tow_model::{End, Request, Role};
use tow_peer::Link;
use tow_turns::{Base, Stage};

/// Takes the head, of so many bytes, and opens the exchange of its request, with the places of its calls. Takes memory for what the
/// exchange keeps, and for the places; if it is short, the head stays, and the connection ends.
pub(crate) fn open<L: Link, C: Clock>(
    alloc: Global,
    base: &mut Base<L>,
    limits: usize,
    clock: &mut C,
    request: Request,
    used: usize,
) -> Stage
    requires some { 0 < used }
    requires within { used ≤ length base.old.port.input.items }
    requires written { base.old.port.output.items ≡ [] }
    ensures steps { (s : Setting) → limits ≡ length (bounds_of s.tree)
        → IsClockOf (C.table clock.old) s.moments
        → LeadsAt (next.Request request used) s (base_of L.shows base.old)
        (base_of L.shows base.new) (stage_of result) }
    ensures fits { (role : Role) (tree : List Statement) (told : Option Files) (n n' : ℕ)
        → limits ≡ length (bounds_of tree)
        → StepFits role tree told n n' (base_of L.shows base.old) (base_of L.shows base.new)
        (stage_of Stage.Reading) (stage_of result) thens.On }
    ensures table { C.table clock.new ≡ C.table clock.old }
{
    let number = base.begun.saturating_add(1);
    let moment = clock.at(base.number, number);
    let Ok(exchange) = Exchange::new(alloc, base.number, number, request, moment) else {
        return Stage::Ended(End::NoMemory);
    };
    let Some(places) = places(limits) else {
        return Stage::Ended(End::NoMemory);
    };
    let Ok(()) = base.calls.reserve(places) else {
        return Stage::Ended(End::NoMemory);
    };
    base.begun = number;
    base.port.input.take(used);
    Stage::Walking(exchange)
}

/// How many calls a request makes at most: it enters each limit once in each pass, and leaves it. None, if they are more than a
/// number counts.
fn places(limits: usize) -> Option<usize>
    ensures some { IfSome result (λ places. places ≡ 2 * (suc MAX_RESTARTS * limits)) }
    ensures none { result ≡ None → usize.MAX < 2 * (suc MAX_RESTARTS * limits) }
{
    limits.checked_mul(2 * (MAX_RESTARTS + 1))
}
