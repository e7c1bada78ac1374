//! What a value of each shape stands for.

ghost use Rattle.std.specs.Prelude.{◌≡◌};
ghost use Rattle.tow_language.specs.declared.table.Shape.TheVariants as shapes;
ghost use Rattle.tow_language.specs.Fit as fits;
ghost use Rattle.tow_fit.specs.Calls.{value_of};
ghost use Rattle.tow_fit.specs.Fitting.{Meets};

use crate::call::WrittenValue;
use crate::fault::ParseFault;
use crate::fitting::fields::{are_methods, field_at};
use crate::fitting::numbers::{number_of, status_of, truth_of};
use crate::fitting::paths::{all_prefixes, all_rooted, prefix_of};
use crate::fitting::segments::segments_of;
use crate::fitting::templates::{format_at, template_at, templates_at, writable_at};
use crate::fitting::texts::{place_of, single_text, some_texts};
use std::alloc::Global;
use tow_language::{Given, Shape};

/// What a value of this shape stands for: its shape is looked at first, then its attributes, then its target. Takes memory
/// for what it makes anew.
pub(crate) fn given_of(
    alloc: Global,
    shape: Shape,
    value: WrittenValue,
) -> Result<Given, ParseFault>
    ensures { Meets result (fits.given_of shape (value_of value)) }
{
    match shape {
        Shape::Pattern => pattern(value),
        Shape::Texts => texts(alloc, value),
        Shape::Paths => paths(alloc, value),
        Shape::Prefixes => prefixes(alloc, value),
        Shape::Location => location(value),
        Shape::Match => path_template(alloc, value),
        Shape::Tokens => tokens(alloc, value),
        Shape::OneTemplate => template(alloc, value),
        Shape::Templates => templates(alloc, value),
        Shape::Format => format(alloc, value),
        Shape::Writable => writable(alloc, value),
        Shape::FieldName => field_name(alloc, value),
        Shape::Number { low, high } => number(low, high, value),
        Shape::Status => status(value),
        Shape::Truth => truth(value),
    }
}

fn pattern(value: WrittenValue) -> Result<Given, ParseFault>
    ensures { Meets result (fits.given_of shapes.Pattern (value_of value)) }
{
    let place = place_of(&value);
    let text = single_text(value)?;
    Ok(Given::Pattern { text, place })
}

fn texts(alloc: Global, value: WrittenValue) -> Result<Given, ParseFault>
    ensures { Meets result (fits.given_of shapes.Texts (value_of value)) }
{
    let texts = some_texts(alloc, value)?;
    Ok(Given::Texts(texts))
}

fn paths(alloc: Global, value: WrittenValue) -> Result<Given, ParseFault>
    ensures { Meets result (fits.given_of shapes.Paths (value_of value)) }
{
    let texts = some_texts(alloc, value)?;
    Ok(Given::Texts(all_rooted(alloc, texts)?))
}

fn prefixes(alloc: Global, value: WrittenValue) -> Result<Given, ParseFault>
    ensures { Meets result (fits.given_of shapes.Prefixes (value_of value)) }
{
    let texts = some_texts(alloc, value)?;
    Ok(Given::Texts(all_prefixes(alloc, texts)?))
}

fn location(value: WrittenValue) -> Result<Given, ParseFault>
    ensures { Meets result (fits.given_of shapes.Location (value_of value)) }
{
    let text = single_text(value)?;
    Ok(Given::Text(prefix_of(text)?))
}

fn path_template(alloc: Global, value: WrittenValue) -> Result<Given, ParseFault>
    ensures { Meets result (fits.given_of shapes.Match (value_of value)) }
{
    let place = place_of(&value);
    let text = single_text(value)?;
    match segments_of(alloc, text)? {
        Some(parts) => Ok(Given::Segments(parts)),
        None => Err(ParseFault::BadParameter(place)),
    }
}

fn tokens(alloc: Global, value: WrittenValue) -> Result<Given, ParseFault>
    ensures { Meets result (fits.given_of shapes.Tokens (value_of value)) }
{
    let place = place_of(&value);
    let texts = some_texts(alloc, value)?;
    if are_methods(texts.as_slice()) {
        Ok(Given::Texts(texts))
    } else {
        Err(ParseFault::BadParameter(place))
    }
}

fn template(alloc: Global, value: WrittenValue) -> Result<Given, ParseFault>
    ensures { Meets result (fits.given_of shapes.OneTemplate (value_of value)) }
{
    let place = place_of(&value);
    let text = single_text(value)?;
    let template = template_at(alloc, place, text.as_slice())?;
    Ok(Given::Template(template))
}

fn templates(alloc: Global, value: WrittenValue) -> Result<Given, ParseFault>
    ensures { Meets result (fits.given_of shapes.Templates (value_of value)) }
{
    let place = place_of(&value);
    let texts = some_texts(alloc, value)?;
    let templates = templates_at(alloc, place, texts.as_slice())?;
    Ok(Given::Templates(templates))
}

fn format(alloc: Global, value: WrittenValue) -> Result<Given, ParseFault>
    ensures { Meets result (fits.given_of shapes.Format (value_of value)) }
{
    let place = place_of(&value);
    let text = single_text(value)?;
    let format = format_at(alloc, place, text.as_slice())?;
    Ok(Given::Template(format))
}

fn writable(alloc: Global, value: WrittenValue) -> Result<Given, ParseFault>
    ensures { Meets result (fits.given_of shapes.Writable (value_of value)) }
{
    let place = place_of(&value);
    let text = single_text(value)?;
    let template = template_at(alloc, place, text.as_slice())?;
    let target = writable_at(place, template)?;
    Ok(Given::Target(target))
}

fn field_name(alloc: Global, value: WrittenValue) -> Result<Given, ParseFault>
    ensures { Meets result (fits.given_of shapes.FieldName (value_of value)) }
{
    let place = place_of(&value);
    let text = single_text(value)?;
    let name = field_at(alloc, place, text.as_slice())?;
    Ok(Given::Text(name))
}

fn number(low: u32, high: u32, value: WrittenValue) -> Result<Given, ParseFault>
    ensures { Meets result (fits.given_of (shapes.Number low high) (value_of value)) }
{
    let place = place_of(&value);
    let text = single_text(value)?;
    match number_of(low, high, text.as_slice()) {
        Some(number) => Ok(Given::Number(number)),
        None => Err(ParseFault::BadParameter(place)),
    }
}

fn status(value: WrittenValue) -> Result<Given, ParseFault>
    ensures { Meets result (fits.given_of shapes.Status (value_of value)) }
{
    let place = place_of(&value);
    let text = single_text(value)?;
    match status_of(text.as_slice()) {
        Some(status) => Ok(Given::Number(status)),
        None => Err(ParseFault::BadParameter(place)),
    }
}

fn truth(value: WrittenValue) -> Result<Given, ParseFault>
    ensures { Meets result (fits.given_of shapes.Truth (value_of value)) }
{
    let place = place_of(&value);
    let text = single_text(value)?;
    match truth_of(text.as_slice()) {
        Some(truth) => Ok(Given::Truth(truth)),
        None => Err(ParseFault::BadParameter(place)),
    }
}
