//! An exchange comes to wait for its content, and its client is told to send it.

ghost use Rattle.std.specs.Prelude.{◌≡◌, ◌<◌, ℕ, List, None, Option, true};
ghost use Rattle.tow_model.specs.declared.statement.Statement.{Statement};
ghost use Rattle.tow_semantics.specs.Files.{Files};
ghost use Rattle.tow_wire.specs.Answers as wire;
ghost use Rattle.tow_states.specs.Gathering as model;
ghost use Rattle.tow_states.specs.Known.{Setting};
ghost use Rattle.tow_stages.specs.Stages as stages;
ghost use Rattle.tow_turns.specs.Data.{base_of, stage_of};
ghost use Rattle.tow_turns.specs.Nexts.{StepFits, end_in, rank};
ghost use Rattle.tow_turns.specs.Safe.{IsOpen, IsSafe};
ghost use Rattle.tow_turns.specs.Steps.{Leads};

use crate::base::Base;
use crate::stage::{Asking, Stage, Then};
use std::alloc::Global;
use tow_content::Gathering;
use tow_exchange::{Exchange, Phase};
use tow_model::limits::MAX_CONTENT_LEN;
use tow_model::{Framing, Request, Role};
use tow_peer::Link;

/// The exchange waits for its content. Takes no memory.
pub fn ask(alloc: Global, exchange: Exchange) -> Stage
    requires waits { exchange.phase ≡ Phase.AwaitsContent }
    ensures steps { (s : Setting) (b : stages.Base) → Leads s b b
        (stage_of (Stage.Walking exchange)) (stage_of result) }
    ensures safe { (tree : List Statement) (told : Option Files) (b : stages.Base)
        → IsOpen tree told b exchange → IsSafe tree told b (stage_of result) }
    ensures near { rank (stage_of result) < 7 }
    ensures goes_on { end_in (stage_of result) ≡ None }
{
    let asked = exchange.request();
    let to_invite = is_to_be_told(asked);
    let gathering = Gathering::new(alloc, asked.framing);
    Stage::Gathering(Asking {
        exchange,
        gathering,
        to_invite,
    })
}

/// Whether the client waits to be told to send its content (RFC 9110, section 10.1.1), and that is not too long.
fn is_to_be_told(request: &Request) -> bool
    ensures { result ≡ model.is_to_be_told request.now }
{
    request.expects && !is_too_long(request.framing)
}

/// Whether the head tells a content that is too long.
fn is_too_long(framing: Framing) -> bool
    ensures { result ≡ wire.is_too_long framing }
{
    match framing {
        Framing::Fixed(len) => len > MAX_CONTENT_LEN,
        Framing::Empty | Framing::Chunked => false,
    }
}

/// Tells the client to send the content, if there is room for that. Takes no memory.
pub fn invite<L: Link>(base: &mut Base<L>, asking: Asking) -> (Stage, Then)
    requires told { asking.to_invite ≡ true }
    ensures steps { (s : Setting) → Leads s (base_of L.shows base.old) (base_of L.shows base.new)
        (stage_of (Stage.Gathering asking)) (stage_of result.0) }
    ensures fits { (role : Role) (tree : List Statement) (told : Option Files) (n n' : ℕ)
        → IsSafe tree told (base_of L.shows base.old) (stage_of (Stage.Gathering asking))
        → StepFits role tree told n n' (base_of L.shows base.old) (base_of L.shows base.new)
        (stage_of (Stage.Gathering asking)) (stage_of result.0) result.1 }
{
    let mut asking = asking;
    if base.port.put(b"HTTP/1.1 100 Continue\r\n\r\n") {
        asking.to_invite = false;
        return (Stage::Gathering(asking), Then::On);
    }
    (Stage::Gathering(asking), Then::Write)
}
