//! Values that are templates.

ghost use Rattle.std.specs.Prelude.{◌≡◌};
ghost use Rattle.tow_model.specs.declared.attribute.Attribute.TheVariants as attributes;
ghost use Rattle.tow_language.specs.Fit as fits;
ghost use Rattle.tow_language.specs.Shapes as shapes;
ghost use Rattle.tow_fit.specs.Fitting.{Meets, sole};

use crate::fault::ParseFault;
use crate::fitting::bytes::is_name;
use crate::fitting::fields::is_kept_field;
use std::alloc::Global;
use tow_attr::{TemplateFault, read_template};
use tow_model::{Attribute, Bytes, List, Piece, Target, Template};

/// The format `common`.
pub(crate) const COMMON: &[u8] = b"%h %l %u %t \"%r\" %s %b";

/// The format `combined`.
const COMBINED: &[u8] = b"%h %l %u %t \"%r\" %s %b \"%{i,referer}\" \"%{i,user-agent}\"";

/// The template of a value at this place. Takes memory for its pieces.
pub(crate) fn template_at(alloc: Global, place: usize, text: &[u8]) -> Result<Template, ParseFault>
    ensures { Meets result (fits.template_at place text.now) }
{
    match read_template(alloc, text) {
        Ok(template) => Ok(template),
        Err(TemplateFault::BadAttribute(_)) => Err(ParseFault::BadAttribute(place)),
        Err(TemplateFault::NoMemory) => Err(ParseFault::NoMemory),
    }
}

/// The template of each text. Takes memory for them.
pub(crate) fn templates_at(
    alloc: Global,
    place: usize,
    texts: &[Bytes],
) -> Result<List<Template>, ParseFault>
    ensures { Meets result (fits.templates_at place texts.now) }
{
    let mut templates = List::new(alloc);
    for text in texts {
        let template = template_at(alloc, place, text.as_slice())?;
        templates.push(template)?;
    }
    Ok(templates)
}

/// A template, or the format of this name. Takes memory for its pieces.
pub(crate) fn format_at(alloc: Global, place: usize, text: &[u8]) -> Result<Template, ParseFault>
    ensures { Meets result (fits.format_at place text.now) }
{
    if is_name(text, b"common") {
        template_at(alloc, place, COMMON)
    } else if is_name(text, b"combined") {
        template_at(alloc, place, COMBINED)
    } else {
        template_at(alloc, place, text)
    }
}

/// The one attribute of a template, which may be written. Takes no memory.
pub(crate) fn writable_at(place: usize, template: Template) -> Result<Target, ParseFault>
    ensures { Meets result (fits.writable_at place template) }
{
    match sole_piece(template) {
        Some(Piece::Value(attribute)) => match target_of(attribute) {
            Some(target) => Ok(target),
            None => Err(ParseFault::BadTarget(place)),
        },
        _ => Err(ParseFault::BadParameter(place)),
    }
}

fn sole_piece(template: Template) -> Option<Piece>
    ensures { result ≡ sole template }
{
    let mut pieces = template.into_vec();
    if pieces.len() == 1 {
        pieces.pop()
    } else {
        None
    }
}

/// The attribute as one that may be written. Takes no memory.
fn target_of(attribute: Attribute) -> Option<Target>
    ensures { result ≡ shapes.target_of attribute }
{
    match attribute {
        Attribute::RelativePath => Some(Target::RelativePath),
        Attribute::Query => Some(Target::Query),
        Attribute::Status => Some(Target::Status),
        Attribute::ResponseField(name) => response_field(name),
        Attribute::Context(name) => Some(Target::Context(name)),
        _ => None,
    }
}

fn response_field(name: Bytes) -> Option<Target>
    ensures { result ≡ shapes.target_of (attributes.ResponseField name) }
{
    if is_kept_field(name.as_slice()) {
        None
    } else {
        Some(Target::ResponseField(name))
    }
}
