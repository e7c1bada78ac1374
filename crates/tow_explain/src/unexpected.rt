//! Why a token may not stand where it stands.

ghost use Rattle.std.specs.Prelude.{◌≡◌};
ghost use Rattle.tow_explain.specs.Causes.{kind_of};
ghost use Rattle.tow_explain.specs.Misplaced as model;
ghost use Rattle.tow_language.specs.declared.kind.Kind.TheVariants as kinds;

use crate::cause::Cause;
use crate::comment::begins_comment;
use crate::open::{Within, surroundings};
use crate::script::{Script, closes, is_bracket};
use tow_language::TokenKind;

/// Why this token may not follow those before it, of which these are open.
pub fn unexpected(script: &Script<'_>, index: usize, open: &[usize]) -> Cause
    ensures cause { result
        ≡ model.misplaced script.now.text.now script.now.tokens.now index «open».now }
    ensures kind { kind_of result ≡ kinds.Unexpected }
{
    let here = script.kind(index);
    if let [.., last] = open {
        if is_left_open(script.kind(*last), here) {
            return Cause::LeftOpen;
        }
    } else if is_closing(here) {
        return Cause::ClosesNothing;
    }
    match surroundings(script, open) {
        Within::List => in_list(script, index),
        Within::Group => in_group(script, index),
        Within::Call(name) if script.is_word(name, b"if") => Cause::NoIf,
        Within::Call(_name) => in_call(script, index, open),
        Within::Array(_name) => in_array(script, index),
    }
}

fn is_closing(here: Option<TokenKind>) -> bool
    ensures { result ≡ model.is_closing here }
{
    match here {
        Some(kind) => closes(kind),
        None => false,
    }
}

/// Whether what this opens is still open where the text ends or another bracket closes.
fn is_left_open(opened: Option<TokenKind>, here: Option<TokenKind>) -> bool
    ensures { result ≡ model.is_left_open opened here }
{
    match here {
        None => true,
        Some(TokenKind::CloseRound) => !matches!(opened, Some(TokenKind::OpenRound)),
        Some(TokenKind::CloseSquare) => !matches!(opened, Some(TokenKind::OpenSquare)),
        Some(TokenKind::CloseBrace) => !matches!(opened, Some(TokenKind::OpenBrace)),
        Some(_other) => false,
    }
}

/// Why the token may not stand in a list of statements.
fn in_list(script: &Script<'_>, index: usize) -> Cause
    ensures cause { result ≡ model.in_list script.now.text.now script.now.tokens.now index }
    ensures kind { kind_of result ≡ kinds.Unexpected }
{
    let before = script.before(index, false);
    if is_comment(script, index) {
        return Cause::Comment;
    }
    if script.is_word(index, b"else") {
        return Cause::LoneElse;
    }
    if begins_line(script, index) && goes_on(script, index) {
        return Cause::AfterLineEnd;
    }
    match script.kind(index) {
        Some(TokenKind::Equals) if is_arrow_head(script, index) => Cause::FatArrow,
        Some(TokenKind::Newline) => Cause::EarlyLineEnd,
        _ => match before {
            Some(before) => after_token(script, index, before),
            None => Cause::WantsStatement,
        },
    }
}

/// Whether the token, or the one before it, was to begin a comment.
fn is_comment(script: &Script<'_>, index: usize) -> bool
    ensures { result ≡ model.is_comment script.now.text.now script.now.tokens.now index }
{
    begins_comment(script.bytes(index)) || index > 0 && begins_comment(script.bytes(index - 1))
}

/// Whether a line end stands before the token.
fn begins_line(script: &Script<'_>, index: usize) -> bool
    ensures { result ≡ model.begins_line script.now.tokens.now index }
{
    index > 0 && script.is_line_end(index - 1)
}

/// Whether the token goes on with a statement that has begun.
fn goes_on(script: &Script<'_>, index: usize) -> bool
    ensures { result ≡ model.goes_on script.now.text.now script.now.tokens.now index }
{
    matches!(script.kind(index), Some(TokenKind::Arrow)) || script.is_joint(index)
}

/// Whether what follows the token is the head of an arrow.
fn is_arrow_head(script: &Script<'_>, index: usize) -> bool
    ensures { result ≡ model.is_arrow_head script.now.text.now script.now.tokens.now index }
{
    matches!(script.bytes(script.behind(index)), [b'>', ..])
}

/// What is wrong with a token that follows the second one in a list of statements.
fn after_token(script: &Script<'_>, index: usize, before: usize) -> Cause
    ensures cause { result
        ≡ model.after_token script.now.text.now script.now.tokens.now index before }
    ensures kind { kind_of result ≡ kinds.Unexpected }
{
    match script.kind(before) {
        Some(TokenKind::Arrow) => Cause::WantsTarget,
        Some(TokenKind::CloseRound | TokenKind::CloseSquare) => Cause::AfterCall,
        Some(TokenKind::CloseBrace) => Cause::AfterStatement,
        Some(TokenKind::Word) => after_word(script, index, before),
        _ => Cause::WantsStatement,
    }
}

/// What is wrong with a token that follows a word, which is the second one.
fn after_word(script: &Script<'_>, index: usize, before: usize) -> Cause
    ensures cause { result
        ≡ model.after_word script.now.text.now script.now.tokens.now index before }
    ensures kind { kind_of result ≡ kinds.Unexpected }
{
    if script.is_joint(before) {
        Cause::WantsPredicate
    } else if script.is_word(before, b"else") {
        Cause::WantsStatement
    } else if script.is_reserved(before) {
        after_end(script.kind(index))
    } else if script.is_word(before, b"if") {
        Cause::NoIf
    } else {
        Cause::AfterCall
    }
}

/// What is wrong with what follows `restart` or `done`.
fn after_end(here: Option<TokenKind>) -> Cause
    ensures cause { result ≡ model.after_end here }
    ensures kind { kind_of result ≡ kinds.Unexpected }
{
    if is_bracket(here) {
        Cause::NoBrackets
    } else {
        Cause::AfterStatement
    }
}

/// Why the token may not stand in the parentheses of a predicate.
fn in_group(script: &Script<'_>, index: usize) -> Cause
    ensures cause { result ≡ model.in_group script.now.text.now script.now.tokens.now index }
    ensures kind { kind_of result ≡ kinds.Unexpected }
{
    match script.before(index, true) {
        Some(before) if script.is_joint(before) => Cause::WantsPredicate,
        Some(before) => match script.kind(before) {
            Some(TokenKind::OpenRound) => Cause::WantsPredicate,
            _ => Cause::InGroup,
        },
        None => Cause::WantsPredicate,
    }
}

/// Why the token may not stand in the brackets of a call.
fn in_call(script: &Script<'_>, index: usize, open: &[usize]) -> Cause
    ensures cause { result ≡ model.in_call script.now.tokens.now index «open».now }
    ensures kind { kind_of result ≡ kinds.Unexpected }
{
    let named = match open {
        [.., last] => is_named(script, *last),
        [] => false,
    };
    if matches!(script.kind(index), Some(TokenKind::Equals)) && !named {
        return Cause::Mixed;
    }
    match script.before(index, true) {
        Some(before) => after_in_call(script, index, before, named),
        None => Cause::WantsValue,
    }
}

/// Whether the values of the call whose bracket opens here have names.
pub fn is_named(script: &Script<'_>, bracket: usize) -> bool
    ensures { result ≡ model.is_named script.now.tokens.now bracket }
{
    let first = script.past_lines(script.behind(bracket));
    is_parameter_name(script, first)
}

/// Whether the token is a word before an equals sign.
pub fn is_parameter_name(script: &Script<'_>, index: usize) -> bool
    ensures { result ≡ model.is_parameter_name script.now.tokens.now index }
{
    match script.kind(index) {
        Some(TokenKind::Word) => {
            let next = script.past_lines(script.behind(index));
            matches!(script.kind(next), Some(TokenKind::Equals))
        }
        _ => false,
    }
}

/// What is wrong with a token that follows the second one in the brackets of a call whose values
/// have names, or none.
fn after_in_call(script: &Script<'_>, index: usize, before: usize, named: bool) -> Cause
    ensures cause { result ≡ model.after_in_call script.now.tokens.now index before named }
    ensures kind { kind_of result ≡ kinds.Unexpected }
{
    match script.kind(before) {
        Some(TokenKind::Comma) if named => Cause::Mixed,
        Some(TokenKind::OpenRound | TokenKind::OpenSquare) => Cause::WantsValue,
        Some(TokenKind::Comma | TokenKind::Equals) => Cause::WantsValue,
        _ if named && follows_comma(script, before) => Cause::Mixed,
        value => after_value(script, index, value),
    }
}

/// What is wrong with a token that follows a value, whose last token is of this kind.
fn after_value(script: &Script<'_>, index: usize, value: Option<TokenKind>) -> Cause
    ensures cause { result ≡ model.after_value script.now.tokens.now index value }
    ensures kind { kind_of result ≡ kinds.Unexpected }
{
    if begins_line(script, index) {
        return Cause::StillOpen;
    }
    match (value, script.kind(index)) {
        (Some(TokenKind::Quoted), Some(TokenKind::Word)) => Cause::AfterQuoted,
        _ => Cause::AfterValue,
    }
}

fn follows_comma(script: &Script<'_>, index: usize) -> bool
    ensures { result ≡ model.follows_comma script.now.tokens.now index }
{
    match script.before(index, true) {
        Some(before) => matches!(script.kind(before), Some(TokenKind::Comma)),
        None => false,
    }
}

/// Why the token may not stand in an array.
fn in_array(script: &Script<'_>, index: usize) -> Cause
    ensures cause { result ≡ model.in_array script.now.tokens.now index }
    ensures kind { kind_of result ≡ kinds.Unexpected }
{
    match script.before(index, true) {
        Some(before) => match script.kind(before) {
            Some(TokenKind::OpenBrace | TokenKind::Comma) => Cause::WantsText,
            _ => Cause::AfterText,
        },
        None => Cause::WantsText,
    }
}
