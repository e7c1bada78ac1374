//! Why a name is not in the tables.

ghost use Rattle.std.specs.Prelude.{◌≡◌};
ghost use Rattle.tow_explain.specs.Causes.{kind_of};
ghost use Rattle.tow_explain.specs.Names as model;
ghost use Rattle.tow_language.specs.declared.kind.Kind.TheVariants as kinds;

use crate::cause::Cause;
use crate::comment::begins_comment;
use crate::open::{Within, surroundings};
use crate::script::Script;
use tow_language::{Handler, TestName, TokenKind};

/// What is wrong with the name of a call, before which these are open.
pub fn unknown(script: &Script<'_>, index: usize, open: &[usize]) -> Cause
    ensures { kind_of result ≡ kinds.UnknownName }
{
    unknown_name(wants_predicate(script, index, open), script.bytes(index))
}

/// What is wrong with a name that stands where a predicate is wanted, or a handler.
fn unknown_name(wants_predicate: bool, name: &[u8]) -> Cause
    ensures cause { result ≡ model.unknown_name wants_predicate name.now }
    ensures kind { kind_of result ≡ kinds.UnknownName }
{
    if begins_comment(name) {
        return Cause::CommentName;
    }
    if wants_predicate {
        match Handler::named(name) {
            Some(_handler) => Cause::HandlerForPredicate,
            None => Cause::UnknownPredicate,
        }
    } else {
        match TestName::named(name) {
            Some(_test) => Cause::PredicateForHandler,
            None => Cause::UnknownHandler,
        }
    }
}

/// Whether the call of this name stands where a predicate is wanted.
fn wants_predicate(script: &Script<'_>, index: usize, open: &[usize]) -> bool {
    if surroundings(script, open) == Within::Group {
        return true;
    }
    match script.before(index, false) {
        Some(before) if script.is_joint(before) => true,
        _ => is_followed_by_predicate(script, index),
    }
}

/// Whether what follows the call of this name makes it a part of a predicate.
fn is_followed_by_predicate(script: &Script<'_>, index: usize) -> bool {
    let next = index.saturating_add(1);
    let end = match script.kind(next) {
        Some(TokenKind::OpenRound | TokenKind::OpenSquare) => script.end(next),
        _ => next,
    };
    match script.kind(end) {
        Some(TokenKind::Arrow) => true,
        Some(TokenKind::Word) => script.is_joint(end),
        _ => false,
    }
}
