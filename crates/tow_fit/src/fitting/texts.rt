//! The texts of a value.

ghost use Rattle.std.specs.Prelude.{◌≡◌, IfOk, map};
ghost use Rattle.tow_language.specs.Fit as fits;
ghost use Rattle.tow_fit.specs.Calls.{value_of, written_of};
ghost use Rattle.tow_fit.specs.Fitting.{Meets, bytes_of};

use crate::call::{WrittenText, WrittenValue};
use crate::fault::ParseFault;
use std::alloc::{AllocError, Global};
use tow_model::{Bytes, List};

/// The place of a value.
pub(crate) fn place_of(value: &WrittenValue) -> usize
    ensures { result ≡ fits.place_of (value_of value.now) }
{
    match value {
        WrittenValue::One(text) => text.place,
        WrittenValue::Array { place, .. } => *place,
    }
}

/// One text. Takes no memory.
pub(crate) fn single_text(value: WrittenValue) -> Result<Bytes, ParseFault>
    ensures { Meets result (fits.single_text (value_of value)) }
{
    match value {
        WrittenValue::One(text) => Ok(bytes_of(text)),
        WrittenValue::Array { place, .. } => Err(ParseFault::BadParameter(place)),
    }
}

/// The texts of an array that is not empty; one text is an array of one. Takes memory for the list.
pub(crate) fn some_texts(alloc: Global, value: WrittenValue) -> Result<List<Bytes>, ParseFault>
    ensures { Meets result (fits.some_texts (value_of value)) }
{
    match value {
        WrittenValue::One(text) => {
            let mut texts = List::new(alloc);
            texts.push(bytes_of(text))?;
            Ok(texts)
        }
        WrittenValue::Array { place, texts } => {
            if texts.len() == 0 {
                return Err(ParseFault::BadParameter(place));
            }
            Ok(all_bytes(alloc, texts)?)
        }
    }
}

/// The texts without their places.
fn all_bytes(alloc: Global, texts: List<WrittenText>) -> Result<List<Bytes>, AllocError>
    ensures { IfOk result (λ all. all ≡ map bytes_of texts) }
{
    let mut all = List::new(alloc);
    for text in texts.into_vec() {
        all.push(bytes_of(text))?;
    }
    Ok(all)
}

fn bytes_of(text: WrittenText) -> Bytes
    ensures { result ≡ bytes_of text }
{
    let WrittenText { bytes, .. } = text;
    bytes
}
