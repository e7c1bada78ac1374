//! What is open at a token.

ghost use Rattle.std.specs.Prelude.{◌≡◌, IfOk, OnOk};
ghost use Rattle.tow_explain.specs.Surroundings as model;

use crate::script::{Script, closes, opens};
use std::alloc::{AllocError, Global};
use tow_language::TokenKind;

/// In what a token stands.
#[derive(Clone, Copy, Debug, PartialEq, Eq)]
pub enum Within {
    /// The text, or a block.
    List,
    /// The parentheses of a predicate.
    Group,
    /// The brackets of the call whose name is this token.
    Call(usize),
    /// An array in the brackets of such a call.
    Array(usize),
}

/// The tokens that open a bracket which is not closed before this token, the outermost first. Takes
/// memory for them.
pub fn open_before(
    alloc: Global,
    script: &Script<'_>,
    index: usize,
) -> Result<Vec<usize>, AllocError>
    ensures { IfOk result (λ v. v.items ≡ model.open_before script.now.tokens.now index) }
{
    let mut open = Vec::new(alloc);
    'tokens: for at in 0..index {
        take_token(&mut open, script.kind(at), at)?;
    }
    Ok(open)
}

/// Takes a token: what is open before it becomes what is open after it. Takes memory.
pub fn take_token(
    open: &mut Vec<usize>,
    kind: Option<TokenKind>,
    index: usize,
) -> Result<(), AllocError>
    ensures { OnOk result (open.new.items ≡ model.open_after open.old.items index kind) }
{
    match kind {
        Some(kind) if opens(kind) => open.push(index)?,
        Some(kind) if closes(kind) => open.truncate(open.len().saturating_sub(1)),
        _ => {}
    }
    Ok(())
}

/// In what a token stands before which these are open.
pub fn surroundings(script: &Script<'_>, open: &[usize]) -> Within
    ensures { result ≡ model.surroundings script.now.text.now script.now.tokens.now «open».now }
{
    let [outer @ .., last] = open else {
        return Within::List;
    };
    match script.kind(*last) {
        Some(TokenKind::OpenBrace) => in_brace(script, outer),
        _ => in_bracket(script, outer, *last),
    }
}

/// In what stands what follows a brace in these.
fn in_brace(script: &Script<'_>, open: &[usize]) -> Within
    ensures { result ≡ model.in_brace script.now.text.now script.now.tokens.now «open».now }
{
    let [outer @ .., last] = open else {
        return Within::List;
    };
    match in_bracket(script, outer, *last) {
        Within::Call(name) => Within::Array(name),
        _ => Within::List,
    }
}

/// In what stands what follows a round or square bracket in these.
fn in_bracket(script: &Script<'_>, outer: &[usize], bracket: usize) -> Within
    ensures { result
        ≡ model.in_bracket script.now.text.now script.now.tokens.now outer.now bracket }
{
    if let Some(TokenKind::OpenBrace) = script.kind(bracket) {
        return Within::List;
    }
    match script.before(bracket, is_bracketed(script, outer)) {
        Some(name) if is_name(script, name) => Within::Call(name),
        _ => Within::Group,
    }
}

fn is_name(script: &Script<'_>, index: usize) -> bool
    ensures { result ≡ model.is_name script.now.text.now script.now.tokens.now index }
{
    match script.kind(index) {
        Some(TokenKind::Word) => !script.is_reserved(index),
        _ => false,
    }
}

/// Whether a line end is white space where these are open.
fn is_bracketed(script: &Script<'_>, open: &[usize]) -> bool
    ensures { result ≡ model.is_bracketed script.now.tokens.now «open».now }
{
    match open {
        [.., last] => !matches!(script.kind(*last), Some(TokenKind::OpenBrace)),
        [] => false,
    }
}
