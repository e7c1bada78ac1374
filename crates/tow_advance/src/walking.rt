//! The loop over the instructions.

ghost use Rattle.std.specs.Prelude.{◌≡◌, ◌≢◌, ◌<◌, ◌≤◌, ◌↔◌, Bool, IsTrue, OnErr, OnOk, ℕ};
ghost use Rattle.tow_model.specs.Dates.{first_undated};
ghost use Rattle.tow_model.specs.Texts.{Text};
ghost use Rattle.tow_semantics.specs.Predicates.{AreAmong};
ghost use Rattle.tow_advance.specs.Knowing.{program_patterns};
ghost use Rattle.tow_advance.specs.Moves.{AddsLogs, Halted, IsUnchosen, NamesNoFile, Stepped, walk_left};
ghost use Rattle.tow_advance.specs.Needs.{IsUnderWay, StaysForWorker, need_in};
ghost use Rattle.tow_advance.specs.Under.{plan_in};
ghost use Rattle.tow_exchange.specs.Exchanges.{after_test, moved_to};
ghost use Rattle.tow_program.specs.Skips.{skipped};

use crate::need::{hands_on, need};
use crate::next::Next;
use crate::steps::take;
use std::alloc::Global;
use tow_exchange::{Exchange, Phase, Place};
use tow_model::{NoMemory, Role};
use tow_pred::Scratch;
use tow_program::Program;

/// Goes on with an exchange until it needs something, which the role decides with its plan. Its plan stays the same, so
/// that the steps of a walk may be split between roles in any way. A loop takes no step after a `blocking`. Takes memory
/// for values, bindings and what actions write; if it is short, the listeners are those that were added so far, and no
/// answer is decided. Listeners are only added, and logs alone. No file becomes its content, which a page alone can do.
pub fn advance(
    alloc: Global,
    scratch: &mut Scratch<'_>,
    program: &Program,
    exchange: &mut Exchange,
    role: Role,
) -> Next
    requires dated { exchange.old.moment < first_undated }
    requires among { AreAmong (program_patterns program.now) scratch.old }
    ensures need { result ≢ Next.NoMemory → result ≡ need_in program.now role exchange.old }
    ensures plan { result ≢ Next.NoMemory
        → plan_in program.now exchange.new ≡ plan_in program.now exchange.old }
    ensures stop { result ≡ Next.Stop → exchange.new.phase ≡ Phase.Stopped }
    ensures limit { (limit : ℕ) → result ≡ Next.AskLimit limit
        → exchange.new.phase ≡ Phase.AwaitsVerdict limit }
    ensures content { result ≡ Next.NeedContent → exchange.new.phase ≡ Phase.AwaitsContent }
    ensures page { (location : Text) (listing : Bool) → result ≡ Next.NeedFolder location listing
        → exchange.new.phase ≡ Phase.AwaitsPage location listing }
    ensures stays { StaysForWorker role exchange.old.stand.mark exchange.old exchange.new }
    ensures no_memory { result ≡ Next.NoMemory
        → IsUnderWay program.now exchange.old exchange.new }
    ensures open { result ≡ Next.NoMemory → exchange.new.phase ≢ Phase.Stopped }
    ensures adds { AddsLogs exchange.old.stand.state.listeners exchange.new.stand.state.listeners }
    ensures unchosen { IsUnchosen exchange.old → IsUnchosen exchange.new }
    ensures unfiled { NamesNoFile exchange.old → NamesNoFile exchange.new }
    ensures nearer { walk_left program.now exchange.new ≤ walk_left program.now exchange.old }
    ensures connection { exchange.new.connection ≡ exchange.old.connection }
    ensures number { exchange.new.number ≡ exchange.old.number }
    ensures request { exchange.new.request ≡ exchange.old.request }
    ensures moment { exchange.new.moment ≡ exchange.old.moment }
    ensures scratch { scratch.new ≡ scratch.old }
{
    if is_stopped(exchange) {
        return Next::Stop;
    }
    loop {
        if !is_running(exchange) {
            return need(alloc, exchange, role);
        }
        if hands_on(role, exchange.dispatch().is_for_worker()) {
            return Next::NeedWorker;
        }
        if let Err(NoMemory) = step(alloc, scratch, program, exchange) {
            return Next::NoMemory;
        }
    }
}

/// Whether the exchange waits for nothing and has no answer yet.
fn is_running(exchange: &Exchange) -> bool
    ensures { IsTrue result ↔ (exchange.now.phase ≡ Phase.Running) }
{
    matches!(exchange.phase(), Phase::Running)
}

/// Whether the exchange has its answer.
fn is_stopped(exchange: &Exchange) -> bool
    ensures { IsTrue result ↔ (exchange.now.phase ≡ Phase.Stopped) }
{
    matches!(exchange.phase(), Phase::Stopped)
}

/// Passes over the tests of literal paths from `at` on that fail, as one that asks them, and tells where it goes on. Takes no
/// memory.
fn pass_failing(program: &Program, exchange: &mut Exchange, at: usize) -> usize
    ensures place { result ≡ skipped program.now exchange.old.stand.state.path at }
    ensures stays { result ≡ at → exchange.new ≡ exchange.old }
    ensures moves { result ≢ at → exchange.new
        ≡ moved_to (Place.InText result) (after_test exchange.old) }
    ensures phase { exchange.new.phase ≡ exchange.old.phase }
    ensures moment { exchange.new.moment ≡ exchange.old.moment }
{
    let to = program.skip(at, exchange.state().path.as_slice());
    if to != at {
        exchange.note_test();
        exchange.go_to(Place::InText(to));
    }
    to
}

/// Goes on by one step, which leaves its plan. What tests of literal paths that fail it passes over is part of the step.
/// Takes memory as `take` does.
fn step(
    alloc: Global,
    scratch: &mut Scratch<'_>,
    program: &Program,
    exchange: &mut Exchange,
) -> Result<(), NoMemory>
    requires dated { exchange.old.moment < first_undated }
    requires among { AreAmong (program_patterns program.now) scratch.old }
    requires running { exchange.old.phase ≡ Phase.Running }
    ensures ok { OnOk result (Stepped program.now exchange.old exchange.new) }
    ensures err { OnErr result (Halted program.now exchange.old exchange.new) }
    ensures scratch { scratch.new ≡ scratch.old }
{
    match exchange.place() {
        Place::InText(at) => {
            let to = pass_failing(program, exchange, at);
            take(alloc, scratch, program, exchange, to)
        }
        Place::AtDefault => {
            exchange.stop_with(404);
            Ok(())
        }
    }
}
