//! The parameters of a query: `name=value`, with `&` between them, percent-encoded on both sides.

ghost use Rattle.std.specs.Prelude.{◌≡◌, ◌++◌, ◌==◌, OnOk, Some, find};
ghost use Rattle.std.specs.Option.{option_copied};
ghost use Rattle.std.specs.Str.{byte, bytes_eq};
ghost use Rattle.percent_encoding.specs.Percent.{percent_decode};
ghost use Rattle.tow_model.specs.Fields.{bound_to};
ghost use Rattle.tow_model.specs.Texts.{cut_at};
ghost use Rattle.tow_semantics.specs.Values.{or_empty, query_parameters};
ghost use Rattle.tow_attr.specs.Finding.{is_parameter};

use crate::binding::{name_of, value_of};
use percent_encoding::percent_decode;
use std::alloc::AllocError;

/// Writes the decoded value of the first parameter of the name. Takes memory for the value alone.
pub(crate) fn append_parameter(
    out: &mut Vec<u8>,
    query: &[u8],
    name: &[u8],
) -> Result<(), AllocError>
    ensures { OnOk result (out.new.items
        ≡ out.old.items ++ or_empty (bound_to name.now (query_parameters (Some query.now)))) }
{
    match first_parameter(query, name) {
        Some(parameter) => percent_decode(value_of(parameter)).append_to(out),
        None => Ok(()),
    }
}

/// The first parameter of the name, as it is written.
fn first_parameter<'a>(query: &'a [u8], name: &[u8]) -> Option<&'a [u8]>
    ensures { option_copied result ≡ find (is_parameter name.now) (cut_at (byte "&") query.now) }
{
    query
        .split(|b| *b == b'&')
        .find(|parameter| is_parameter(parameter, name))
}

/// Whether the parameter has the name, when that is decoded.
fn is_parameter(parameter: &[u8], name: &[u8]) -> bool
    ensures { result ≡ is_parameter name.now parameter.now }
{
    decodes_to(name_of(parameter), name)
}

/// Whether the text is percent-encoded of the other. Takes no memory.
fn decodes_to(text: &[u8], decoded: &[u8]) -> bool
    ensures { result ≡ bytes_eq (percent_decode text.now) decoded.now }
{
    let mut bytes = percent_decode(text);
    for wanted in decoded {
        match bytes.next() {
            Some(byte) if byte == *wanted => {}
            _ => return false,
        }
    }
    bytes.next().is_none()
}
