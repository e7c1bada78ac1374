//! The values of a call.

ghost use Rattle.std.specs.Prelude.{◌≡◌};
ghost use Rattle.tow_notes.specs.Calls as model;

use crate::remark::Remark;
use crate::value::{has_attribute, is};
use tow_explain::{Script, is_named, is_parameter_name, spelled};
use tow_language::TokenKind;

/// Whether the token names a call that has brackets.
pub fn is_call(script: &Script<'_>, index: usize) -> bool
    ensures { result ≡ model.is_call script.now.tokens.now index }
{
    matches!(script.kind(index), Some(TokenKind::Word))
        && is_bracket(script.kind(script.behind(index)))
}

fn is_bracket(kind: Option<TokenKind>) -> bool
    ensures { result ≡ model.is_bracket kind }
{
    matches!(kind, Some(TokenKind::OpenRound | TokenKind::OpenSquare))
}

/// The token with which the value of a parameter begins, if it is written in the call that this
/// token names. The value of a call's first parameter may have no name.
pub fn value_of(
    script: &Script<'_>,
    name: usize,
    parameter: &[u8],
    is_first: bool,
) -> Option<usize> {
    if !is_call(script, name) {
        return None;
    }
    let bracket = script.behind(name);
    if is_named(script, bracket) {
        return named_value(script, bracket, parameter);
    }
    if is_first {
        Some(script.past_lines(script.behind(bracket)))
    } else {
        None
    }
}

/// The value of the parameter in the call whose bracket opens here, if it is written by name.
fn named_value(script: &Script<'_>, bracket: usize, parameter: &[u8]) -> Option<usize> {
    for at in bracket..script.end(bracket) {
        if is_parameter_name(script, at) && script.bytes(at) == parameter {
            let equals = script.past_lines(script.behind(at));
            return Some(script.past_lines(script.behind(equals)));
        }
    }
    None
}

/// What is known of a call before its values are looked at one by one.
#[derive(Clone, Copy)]
pub struct Call {
    /// The token that names it.
    pub name: usize,
    /// The token with which the value begins that is compared with the decoded path, or is searched
    /// in it.
    pub decoded: Option<usize>,
    /// Whether it gives an address.
    pub is_address: bool,
}

/// The call that this token names. Takes no memory.
pub fn call_at(script: &Script<'_>, name: usize) -> Call {
    Call {
        name,
        decoded: decoded_value(script, name),
        is_address: is_address(script, name),
    }
}

/// The value of the call that is compared with the decoded path, or is searched in it.
fn decoded_value(script: &Script<'_>, name: usize) -> Option<usize> {
    let (parameter, is_first): (&[u8], bool) = if script.is_word(name, b"path-template") {
        (b"match", true)
    } else if script.is_word(name, b"regex") {
        (b"pattern", true)
    } else if script.is_word(name, b"contains") {
        (b"search", false)
    } else {
        return None;
    };
    if is_of_decoded_path(script, name) {
        value_of(script, name, parameter, is_first)
    } else {
        None
    }
}

/// Whether the value of the parameter `value` is the decoded path. It is, if it is left out.
fn is_of_decoded_path(script: &Script<'_>, name: usize) -> bool {
    match value_of(script, name, b"value", false) {
        Some(value) => is_decoded_path(spelled(script, value)),
        None => true,
    }
}

/// Whether the call gives an address.
fn is_address(script: &Script<'_>, name: usize) -> bool {
    if script.is_word(name, b"redirect") {
        return true;
    }
    if !script.is_word(name, b"header") {
        return false;
    }
    match value_of(script, name, b"header", true) {
        Some(field) => spelled(script, field).eq_ignore_ascii_case(b"location"),
        None => false,
    }
}

fn is_decoded_path(value: &[u8]) -> bool {
    is(value, b"%R") || is(value, b"%{RELATIVE_PATH}")
}

/// What is remarked on the values of an `equals` that this token names.
pub fn remark_on_equals(script: &Script<'_>, name: usize) -> Option<Remark> {
    let bracket = script.behind(name);
    let mut count: usize = 0;
    let mut has_some = false;
    for at in bracket..script.end(bracket) {
        if is_value(script, at) {
            count = count.saturating_add(1);
            has_some = has_some || has_attribute(spelled(script, at));
        }
    }
    match count {
        0 => None,
        1 => Some(Remark::EqualsOfOne),
        _ if has_some => None,
        _ => Some(Remark::EqualsOfTexts),
    }
}

/// Whether the token is a text in a call, and not the name of a parameter.
pub fn is_value(script: &Script<'_>, index: usize) -> bool
    ensures { result ≡ model.is_value script.now.tokens.now index }
{
    match script.kind(index) {
        Some(TokenKind::Quoted) => true,
        Some(TokenKind::Word) => !is_parameter_name(script, index),
        _ => false,
    }
}

/// Whether each text of the call that this token names is a path in which no byte has another
/// meaning in an address.
pub fn has_plain_texts(script: &Script<'_>, name: usize) -> bool {
    let bracket = script.behind(name);
    for at in bracket..script.end(bracket) {
        if is_value(script, at) && !is_plain(spelled(script, at)) {
            return false;
        }
    }
    true
}

fn is_plain(path: &[u8]) -> bool {
    path.iter()
        .all(|byte| *byte != b'%' && *byte != b'?' && *byte != b'#')
}
