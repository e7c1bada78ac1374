//! What one instruction does to an exchange.

ghost use Rattle.std.specs.Prelude.{◌≡◌, ◌<◌, IfOk, IsTrue, OnErr, OnOk, length, slice_get};
ghost use Rattle.std.specs.Result.{is_ok};
ghost use Rattle.tow_model.specs.Dates.{first_undated};
ghost use Rattle.tow_semantics.specs.Effects.{effect_of};
ghost use Rattle.tow_semantics.specs.Predicates.{AreAmong, held, pattern_of, test_of};
ghost use Rattle.tow_advance.specs.Knowing.{program_patterns};
ghost use Rattle.tow_advance.specs.Moves as moves;
ghost use Rattle.tow_advance.specs.Moves.{acted, at_default, taken, with_context};
ghost use Rattle.tow_exchange.specs.Exchanges.{after_test, with_state};

use std::alloc::Global;
use tow_effect::{Effect, effect};
use tow_exchange::{Exchange, Phase, Place};
use tow_model::{Action, Bytes, NoMemory, Test};
use tow_pred::{Scratch, passes};
use tow_program::{Instruction, Program};

/// Takes the instruction `at`, or comes to the default handler where there is none. Takes memory for values, bindings and
/// what actions write; if it is short, nothing but the context of the record may have changed.
pub(crate) fn take(
    alloc: Global,
    scratch: &mut Scratch<'_>,
    program: &Program,
    exchange: &mut Exchange,
    at: usize,
) -> Result<(), NoMemory>
    requires dated { exchange.old.moment < first_undated }
    requires among { AreAmong (program_patterns program.now) scratch.old }
    requires running { exchange.old.phase ≡ Phase.Running }
    ensures ok { OnOk result (exchange.new
        ≡ taken program.now (slice_get program.now at) at exchange.old) }
    ensures err { OnErr result (exchange.new
        ≡ with_context exchange.new.stand.state.context exchange.old) }
    ensures scratch { scratch.new ≡ scratch.old }
{
    match program.get(at) {
        None => {
            look_for_default(alloc, exchange);
            Ok(())
        }
        Some(Instruction::Ask { test, holds, fails }) => {
            let held = ask(alloc, scratch, test, exchange)?;
            let passed = if held { *holds } else { *fails };
            exchange.go_to(Place::InText(past(program, at, passed)));
            Ok(())
        }
        Some(Instruction::Do(action)) => {
            let next = past(program, at, 0);
            act(alloc, action, exchange, next)
        }
        Some(Instruction::Skip(passed)) => {
            exchange.go_to(Place::InText(past(program, at, *passed)));
            Ok(())
        }
    }
}

/// The place behind so many of the instructions that follow the one at `at`, or the end of the program.
fn past(program: &Program, at: usize, passed: usize) -> usize
    requires { at < length program.now }
    ensures { result ≡ moves.past program.now at passed }
{
    let behind = program.len() - at - 1;
    if passed < behind {
        at + 1 + passed
    } else {
        program.len()
    }
}

/// Asks a test of the exchange. Takes memory for values and bindings.
fn ask(
    alloc: Global,
    scratch: &mut Scratch<'_>,
    test: &Test,
    exchange: &mut Exchange,
) -> Result<bool, NoMemory>
    requires dated { exchange.old.moment < first_undated }
    requires among { AreAmong (pattern_of test.now) scratch.old }
    requires running { exchange.old.phase ≡ Phase.Running }
    ensures ok { IfOk result (λ holds. held (test_of test.now exchange.old.request
        exchange.old.stand.state exchange.old.moment) exchange.old.stand.state
        ≡ record { holds = holds; state = exchange.new.stand.state }) }
    ensures noted { IsTrue (is_ok result) → exchange.new
        ≡ after_test (with_state exchange.new.stand.state exchange.old) }
    ensures err { OnErr result (exchange.new
        ≡ with_context exchange.new.stand.state.context exchange.old) }
    ensures scratch { scratch.new ≡ scratch.old }
{
    let moment = exchange.moment();
    let (request, state) = exchange.under_way();
    let holds = passes(alloc, scratch, test, request, state, moment)?;
    exchange.note_test();
    Ok(holds)
}

/// Takes an action, after which the text goes on at `next`. Takes memory for what it writes, and for the listeners of a
/// limit; if it is short, the exchange is as it was.
fn act(alloc: Global, action: &Action, exchange: &mut Exchange, next: usize) -> Result<(), NoMemory>
    requires dated { exchange.old.moment < first_undated }
    requires running { exchange.old.phase ≡ Phase.Running }
    ensures ok { OnOk result (exchange.new ≡ acted action.now (effect_of action.now
        exchange.old.request exchange.old.stand.state exchange.old.moment) next exchange.old) }
    ensures err { OnErr result (exchange.new ≡ exchange.old) }
{
    let moment = exchange.moment();
    let (request, state) = exchange.under_way();
    match effect(alloc, action, request, state, moment) {
        Effect::Go => {
            exchange.note_action(action);
            exchange.go_to(Place::InText(next));
        }
        Effect::Stop => {
            exchange.note_action(action);
            exchange.stop();
        }
        Effect::Ask(limit) => exchange.await_verdict(alloc, limit, Place::InText(next))?,
        Effect::Content => exchange.await_content(Place::InText(next)),
        Effect::Page { location, listing } => {
            exchange.await_page(location, listing, Place::InText(next));
        }
        Effect::Restart => {
            exchange.note_action(action);
            exchange.begin_again(alloc);
        }
        Effect::ToDefault => {
            exchange.note_action(action);
            look_for_default(alloc, exchange);
        }
        Effect::NoMemory => return Err(NoMemory),
    }
    Ok(())
}

/// Comes to the default handler, which looks for a page. Takes no memory.
fn look_for_default(alloc: Global, exchange: &mut Exchange)
    ensures { exchange.new ≡ at_default exchange.old }
{
    let location = Bytes::from_vec(Vec::new(alloc));
    exchange.await_page(location, false, Place::AtDefault);
}
