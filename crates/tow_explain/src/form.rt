//! What a call takes, as a person reads it.

ghost use Rattle.std.specs.Prelude.{◌≡◌, ◌++◌, OnOk};
ghost use Rattle.tow_explain.specs.Forms as model;

use itoa::Buffer;
use std::alloc::AllocError;
use tow_language::{Parameter, Shape, Standard};

/// Appends a parameter: its name, what its value is, and what stands for it if it is left out.
pub fn put_parameter(out: &mut Vec<u8>, parameter: &Parameter) -> Result<(), AllocError>
    ensures { OnOk result (out.new.items ≡ out.old.items ++ model.parameter_words parameter.now) }
{
    out.extend_from_slice(parameter.name)?;
    out.extend_from_slice(b": ")?;
    out.extend_from_slice(fixed_words(parameter.shape))?;
    put_bounds(out, parameter.shape)?;
    out.extend_from_slice(standard_words(parameter.standard))?;
    Ok(())
}

/// Whether a call takes something.
pub fn takes_words(parameters: &[Parameter]) -> &'static [u8]
    ensures { result.now ≡ model.takes_words parameters.now }
{
    if parameters.is_empty() {
        b" takes nothing"
    } else {
        b" takes"
    }
}

/// What a value of this shape is, but for its bounds.
#[tactic(auto, unfolding(crate::specs::Forms::fixed_words))]
fn fixed_words(shape: Shape) -> &'static [u8]
    ensures { result.now ≡ model.fixed_words shape }
{
    match shape {
        Shape::Pattern => b"a pattern of regex",
        Shape::Texts => b"one text or more",
        Shape::Paths => b"one path or more",
        Shape::Prefixes => b"one prefix of paths or more",
        Shape::Location => b"a prefix of paths",
        Shape::Match => b"a path, with {name} for a segment that is bound",
        Shape::Tokens => b"one method or more",
        Shape::OneTemplate => b"a text, with attributes or without",
        Shape::Templates => b"one text or more, with attributes or without",
        Shape::Format => b"common, combined, or a text with attributes",
        Shape::Writable => b"one attribute that may be written",
        Shape::FieldName => b"the name of a field",
        Shape::Number { .. } => b"a number",
        Shape::Status => b"a status from 200 to 599 other than 205",
        Shape::Truth => b"true or false",
    }
}

/// Appends the bounds of a number.
fn put_bounds(out: &mut Vec<u8>, shape: Shape) -> Result<(), AllocError>
    ensures { OnOk result (out.new.items ≡ out.old.items ++ model.bounds_words shape) }
{
    let Shape::Number { low, high } = shape else {
        return Ok(());
    };
    out.extend_from_slice(b" from ")?;
    out.extend_from_slice(Buffer::new().format(low).as_bytes())?;
    out.extend_from_slice(b" to ")?;
    out.extend_from_slice(Buffer::new().format(high).as_bytes())?;
    Ok(())
}

/// What stands for a parameter that is left out.
fn standard_words(standard: Option<Standard>) -> &'static [u8]
    ensures { result.now ≡ model.standard_words standard }
{
    match standard {
        None => b"",
        Some(Standard::ThePath) => b"; %R if it is left out",
        Some(Standard::Truth(true)) => b"; true if it is left out",
        Some(Standard::Truth(false)) => b"; false if it is left out",
        Some(Standard::Common) => b"; common if it is left out",
    }
}
