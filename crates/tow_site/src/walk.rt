//! The walk over statements.

ghost use Rattle.std.specs.Prelude.{◌≡◌, ◌<◌, IfOk, IsTrue};
ghost use Rattle.std.specs.List.{list_all};
ghost use Rattle.tow_model.specs.Dates.{first_undated};
ghost use Rattle.tow_semantics.specs.Predicates.{AreAmong};
ghost use Rattle.tow_pred.specs.Numbering.{statement_patterns, tree_patterns};
ghost use Rattle.tow_site.specs.Built.{is_built_action, is_built_statement};
ghost use Rattle.tow_site.specs.Walking.{Acts, Walks, WalksAll};

use std::alloc::Global;
use tow_effect::{Effect, effect};
use tow_model::{Action, Choice, NoMemory, Record, Request, Statement};
use tow_pred::{Scratch, holds};

/// How a walk over statements ends.
#[derive(Clone, Copy, Debug, PartialEq, Eq)]
pub(crate) enum Walked {
    /// The next statement follows.
    Next,
    /// The answer is decided.
    Stopped,
    /// The default handler answers.
    ToDefault,
    /// The text begins again.
    Restarted,
}

/// Walks from the left, until a statement does not go on to the next one. Takes memory for values, bindings and what actions
/// write.
#[cycle(walk)]
pub(crate) fn walk_list(
    alloc: Global,
    scratch: &mut Scratch<'_>,
    statements: &[Statement],
    request: &Request,
    state: &mut Record,
    moment: u64,
) -> Result<Walked, NoMemory>
    requires built { IsTrue (list_all is_built_statement statements.now) }
    requires among { AreAmong (tree_patterns statements.now) scratch.old }
    requires dated { moment < first_undated }
    ensures walks { IfOk result (λ end. WalksAll request.now moment statements.now state.old end
        state.new) }
    ensures empty { IfOk result (λ end. end ≡ Walked.Stopped → state.new.choice ≡ Choice.Empty) }
    ensures scratch { scratch.new ≡ scratch.old }
{
    for statement in statements {
        match walk_statement(alloc, scratch, statement, request, state, moment)? {
            Walked::Next => {}
            end => return Ok(end),
        }
    }
    Ok(Walked::Next)
}

#[cycle(walk)]
fn walk_statement(
    alloc: Global,
    scratch: &mut Scratch<'_>,
    statement: &Statement,
    request: &Request,
    state: &mut Record,
    moment: u64,
) -> Result<Walked, NoMemory>
    requires built { IsTrue (is_built_statement statement.now) }
    requires among { AreAmong (statement_patterns statement.now) scratch.old }
    requires dated { moment < first_undated }
    ensures walks { IfOk result (λ end. Walks request.now moment statement.now state.old end
        state.new) }
    ensures empty { IfOk result (λ end. end ≡ Walked.Stopped → state.new.choice ≡ Choice.Empty) }
    ensures scratch { scratch.new ≡ scratch.old }
{
    match statement {
        Statement::When { test, yes, other } => {
            if holds(alloc, scratch, test, request, state, moment)? {
                walk_statement(alloc, scratch, yes.get(), request, state, moment)
            } else if let Some(other) = other {
                walk_statement(alloc, scratch, other.get(), request, state, moment)
            } else {
                Ok(Walked::Next)
            }
        }
        Statement::Act(action) => act(alloc, action, request, state, moment),
        Statement::Block(parts) => {
            let parts = parts.as_slice();
            walk_list(alloc, scratch, parts, request, state, moment)
        }
    }
}

/// Does what an action says. Takes memory for what it writes.
fn act(
    alloc: Global,
    action: &Action,
    request: &Request,
    state: &mut Record,
    moment: u64,
) -> Result<Walked, NoMemory>
    requires built { IsTrue (is_built_action action.now) }
    requires dated { moment < first_undated }
    ensures acts { IfOk result (λ end. Acts request.now moment action.now state.old end state.new) }
    ensures empty { IfOk result (λ end. end ≡ Walked.Stopped → state.new.choice ≡ Choice.Empty) }
{
    match effect(alloc, action, request, state, moment) {
        Effect::Go => Ok(Walked::Next),
        Effect::Stop => Ok(Walked::Stopped),
        Effect::Restart => Ok(Walked::Restarted),
        Effect::ToDefault => Ok(Walked::ToDefault),
        Effect::Ask(_) | Effect::Content | Effect::Page { .. } => unreachable!(),
        Effect::NoMemory => Err(NoMemory),
    }
}
