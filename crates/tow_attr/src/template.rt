ghost use Rattle.std.specs.Prelude.{◌≡◌, ◌+◌, ◌<◌, ◌≤◌, ℕ, true, length, slice_index, drop, IfOk, IfErr, IsErrOf, Ok, Err};
ghost use Rattle.tow_language.specs.Templates.{begins_value, template_of};
ghost use Rattle.tow_attr.specs.Reading.{ahead, rest_from};

use crate::attribute::read_attribute;
use crate::draft::Draft;
use crate::fault::TemplateFault;
use crate::piece::{plain_end, value_end};
use std::alloc::Global;
use tow_model::Template;

/// Reads a text as a template. Bytes that stand for themselves are one piece up to the next attribute, `%%` is a plain
/// `%`, and the names of fields are kept in lower case. Takes memory for the pieces and their names.
pub fn read_template(alloc: Global, text: &[u8]) -> Result<Template, TemplateFault>
    ensures ok { IfOk result (λ t. template_of text.now ≡ Ok t) }
    ensures bad { (place : ℕ) → IsErrOf result (TemplateFault.BadAttribute place)
        → template_of text.now ≡ Err place }
{
    let mut draft = Draft::new(alloc);
    let mut at = 0;
    loop {
        let from = plain_end(text, at);
        draft.put_bytes(&text[at..from])?;
        if from == text.len() {
            return Ok(draft.finish()?);
        }
        at = read_value(alloc, text, from, &mut draft)?;
    }
}

/// Adds what begins with the `%` or `${` at the place, and answers the place behind it.
fn read_value(
    alloc: Global,
    text: &[u8],
    from: usize,
    draft: &mut Draft,
) -> Result<usize, TemplateFault>
    requires within { from < length text.now }
    requires value { begins_value (slice_index text.now from) (drop (from + 1) text.now) ≡ true }
    ensures forward { IfOk result (λ to. from < to) }
    ensures within { IfOk result (λ to. to ≤ length text.now) }
    ensures ok { IfOk result (λ to. ahead draft.old.pieces draft.old.literal.items
        (rest_from text.now from)
        ≡ ahead draft.new.pieces draft.new.literal.items (rest_from text.now to)) }
    ensures bad { (place : ℕ) → IsErrOf result (TemplateFault.BadAttribute place)
        → (place ≡ from) × (rest_from text.now from ≡ Err place) }
{
    let Some(to) = value_end(text, from) else {
        return Err(TemplateFault::BadAttribute(from));
    };
    if text[from + 1] == b'%' {
        draft.put_bytes(b"%")?;
        return Ok(to);
    }
    match read_attribute(alloc, &text[from..to])? {
        Some(attribute) => draft.put_value(attribute)?,
        None => return Err(TemplateFault::BadAttribute(from)),
    }
    Ok(to)
}
