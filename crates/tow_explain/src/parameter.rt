//! Where in a call a parameter is wrong, and which.

use crate::open::{Within, surroundings};
use crate::script::{Script, closes, is_bracket, opens};
use crate::spot::{Form, Spot};
use crate::unexpected::{is_named, is_parameter_name};
use tow_language::{Handler, Parameter, Shape, Signature, TestName, TokenKind};

/// The row of the tables for a call of this name.
pub fn signature_of(name: &[u8]) -> Option<Signature> {
    match TestName::named(name) {
        Some(test) => Some(test.signature()),
        None => match Handler::named(name) {
            Some(handler) => Some(handler.signature()),
            None => None,
        },
    }
}

/// The name of the call in which the token stands before which these are open; else the token
/// itself.
pub fn call_name(script: &Script<'_>, index: usize, open: &[usize]) -> usize {
    match surroundings(script, open) {
        Within::Call(name) | Within::Array(name) => name,
        Within::List | Within::Group => index,
    }
}

/// The spot of a call with these parameters that the token is, before which these are open.
pub fn spot_at<'a>(
    script: &Script<'a>,
    index: usize,
    open: &[usize],
    parameters: &[Parameter],
) -> Spot<'a> {
    let [.., bracket] = open else {
        return Spot::Call;
    };
    let Within::Call(_name) = surroundings(script, open) else {
        return Spot::Call;
    };
    if is_parameter_name(script, index) {
        return Spot::Name(script.bytes(index));
    }
    Spot::Value {
        form: form_at(script, index, *bracket),
        shape: shape_at(script, index, parameters),
    }
}

/// How the value is written that begins at the token, in a call whose bracket opens here.
fn form_at(script: &Script<'_>, index: usize, bracket: usize) -> Form {
    let named = is_named(script, bracket);
    if !named && follows(script, index, TokenKind::Comma) {
        return Form::Further;
    }
    if !named && has_array_among(script, bracket) {
        return Form::Among;
    }
    match script.kind(index) {
        Some(TokenKind::OpenBrace) => array_form(script, index),
        _ => Form::Text,
    }
}

fn array_form(script: &Script<'_>, brace: usize) -> Form {
    let first = script.past_lines(brace.saturating_add(1));
    match script.kind(first) {
        Some(TokenKind::CloseBrace) => Form::Empty,
        _ => Form::Array,
    }
}

/// Whether the token follows one of this kind, line ends aside.
fn follows(script: &Script<'_>, index: usize, kind: TokenKind) -> bool {
    match script.before(index, true) {
        Some(before) => is_of(script.kind(before), kind),
        None => false,
    }
}

fn is_of(found: Option<TokenKind>, kind: TokenKind) -> bool {
    match found {
        Some(found) => found == kind,
        None => false,
    }
}

/// Whether the call whose bracket opens here has several values, and an array is one of them.
fn has_array_among(script: &Script<'_>, bracket: usize) -> bool {
    let mut depth: usize = 0;
    let mut has_comma = false;
    let mut has_array = false;
    for at in bracket..script.end(bracket) {
        match script.kind(at) {
            Some(TokenKind::Comma) if depth == 1 => has_comma = true,
            Some(kind) if opens(kind) => {
                has_array = has_array || depth == 1;
                depth = depth.saturating_add(1);
            }
            Some(kind) if closes(kind) => depth = depth.saturating_sub(1),
            _ => {}
        }
    }
    has_comma && has_array
}

/// What the value that begins at the token has to be, if the call has such a parameter.
pub fn shape_at(script: &Script<'_>, index: usize, parameters: &[Parameter]) -> Option<Shape> {
    if follows(script, index, TokenKind::Equals) {
        return shape_named(parameters, name_of_value(script, index));
    }
    match parameters {
        [first, ..] => Some(first.shape),
        [] => None,
    }
}

/// The name of the parameter whose value begins at the token.
fn name_of_value<'a>(script: &Script<'a>, index: usize) -> &'a [u8] {
    let Some(equals) = script.before(index, true) else {
        return &[];
    };
    match script.before(equals, true) {
        Some(name) => script.bytes(name),
        None => &[],
    }
}

fn shape_named(parameters: &[Parameter], name: &[u8]) -> Option<Shape> {
    match parameters.iter().find(|parameter| parameter.name == name) {
        Some(parameter) => Some(parameter.shape),
        None => None,
    }
}

/// The name of the first parameter that has no default and is not written in the call of this name.
pub fn missing_name(
    script: &Script<'_>,
    name: usize,
    parameters: &[Parameter],
) -> Option<&'static [u8]> {
    let bracket = name.saturating_add(1);
    let mut is_first = true;
    for parameter in parameters {
        if parameter.standard.is_none() && !is_written(script, bracket, parameter.name, is_first) {
            return Some(parameter.name);
        }
        is_first = false;
    }
    None
}

/// Whether the parameter is written in the call whose bracket opens here, if one does.
fn is_written(script: &Script<'_>, bracket: usize, name: &[u8], is_first: bool) -> bool {
    if !is_bracket(script.kind(bracket)) {
        return false;
    }
    let end = script.end(bracket);
    if !is_named(script, bracket) {
        let first = script.past_lines(bracket.saturating_add(1));
        return is_first && first.saturating_add(1) < end;
    }
    for at in bracket..end {
        if is_parameter_name(script, at) && script.bytes(at) == name {
            return true;
        }
    }
    false
}
