//! Which attribute of a value is none, and what of a value may not be written.

use crate::script::{Script, part};
use std::alloc::Global;
use tow_attr::{TemplateFault, read_template};
use tow_language::TokenKind;
use tow_model::NoMemory;

/// The text that a token spells, without its quotes.
pub fn spelled<'a>(script: &Script<'a>, index: usize) -> &'a [u8] {
    let bytes = script.bytes(index);
    match script.kind(index) {
        Some(TokenKind::Quoted) => match bytes {
            [_open, inner @ .., _close] => inner,
            _ => bytes,
        },
        _ => bytes,
    }
}

/// The first attribute that is none, in the texts from this token to the end of its call.
pub fn bad_attribute<'a>(
    alloc: Global,
    script: &Script<'a>,
    index: usize,
    end: usize,
) -> Result<&'a [u8], NoMemory> {
    for at in index..end {
        if is_text(script.kind(at)) {
            let text = spelled(script, at);
            match read_template(alloc, text) {
                Ok(_template) => {}
                Err(TemplateFault::BadAttribute(place)) => return Ok(attribute_at(text, place)),
                Err(TemplateFault::NoMemory) => return Err(NoMemory),
            }
        }
    }
    Ok(spelled(script, index))
}

fn is_text(kind: Option<TokenKind>) -> bool {
    matches!(kind, Some(TokenKind::Word | TokenKind::Quoted))
}

/// What is spelled as an attribute at the place: two bytes, or all up to the brace that closes.
fn attribute_at(text: &[u8], place: usize) -> &[u8] {
    let rest = part(text, place, text.len());
    match rest {
        [_mark, b'{', ..] => match rest.iter().position(|byte| *byte == b'}') {
            Some(close) => part(rest, 0, close.saturating_add(1)),
            None => rest,
        },
        [_mark, _letter, ..] => part(rest, 0, 2),
        _ => rest,
    }
}

/// Whether the text spells a field of the response.
pub fn is_response_field(text: &[u8]) -> bool {
    matches!(text, [b'%', b'{', b'o', b',', ..])
}
