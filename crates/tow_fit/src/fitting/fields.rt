//! The names of fields, and of methods.

ghost use Rattle.std.specs.Prelude.{◌≡◌};
ghost use Rattle.std.specs.List.{list_all};
ghost use Rattle.tow_language.specs.Fit as fits;
ghost use Rattle.tow_language.specs.Shapes as shapes;
ghost use Rattle.tow_fit.specs.Fitting.{Meets, writable_field};

use crate::fault::ParseFault;
use crate::fitting::bytes::is_name;
use http_header::{HeaderName, HeaderNameError, is_token};
use std::alloc::Global;
use tow_model::Bytes;

/// The name in lower case of a field that may be written (RFC 9110, section 5.1). Takes memory for it.
pub(crate) fn field_at(alloc: Global, place: usize, text: &[u8]) -> Result<Bytes, ParseFault>
    ensures { Meets result (fits.field_at place text.now) }
{
    match HeaderName::from_bytes(alloc, text) {
        Ok(field) => writable_field(alloc, place, field.as_bytes()),
        Err(HeaderNameError::Invalid) => Err(ParseFault::BadAttribute(place)),
        Err(HeaderNameError::OutOfMemory) => Err(ParseFault::NoMemory),
    }
}

/// The name in lower case, unless no text may write the field.
fn writable_field(alloc: Global, place: usize, name: &[u8]) -> Result<Bytes, ParseFault>
    ensures { Meets result (writable_field place name.now) }
{
    if is_kept_field(name) {
        return Err(ParseFault::BadTarget(place));
    }
    Ok(Bytes::from_slice(alloc, name)?)
}

/// Whether no text may write the field of this name, which is in lower case.
pub(crate) fn is_kept_field(name: &[u8]) -> bool
    ensures { result ≡ shapes.is_kept_field name.now }
{
    is_name(name, b"connection")
        || is_name(name, b"content-length")
        || is_name(name, b"date")
        || is_name(name, b"trailer")
        || is_name(name, b"transfer-encoding")
        || is_name(name, b"upgrade")
}

/// Whether each text is a token (RFC 9110, section 5.6.2).
pub(crate) fn are_methods(texts: &[Bytes]) -> bool
    ensures { result ≡ list_all fits.is_method texts.now }
{
    texts.iter().all(|text| is_method(text))
}

fn is_method(text: &Bytes) -> bool
    ensures { result ≡ fits.is_method text.now }
{
    is_token(text.as_slice())
}
