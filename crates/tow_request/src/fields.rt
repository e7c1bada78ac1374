//! The field lines of a head, read and copied by their spans.

ghost use Rattle.std.specs.Prelude.{◌≡◌, All, IfOk, length};
ghost use Rattle.std.specs.Option.{option_copied};
ghost use Rattle.httparse.specs.Spans.{IsHeaderWithin};
ghost use Rattle.tow_model.specs.Fields.{has, is_named, values_of};
ghost use Rattle.tow_request.specs.Lines as model;
ghost use Rattle.tow_request.specs.Lines.{field_at, fields_at};

use httparse::spans::HeaderSpan;
use std::alloc::{AllocError, Global};
use tow_model::{Field, List};
use tow_text::{copied_field, is_field_name};

/// Whether a line has the name, in any case.
pub(crate) fn has_name(bytes: &[u8], line: HeaderSpan, name: &[u8]) -> bool
    requires { IsHeaderWithin (length bytes.now) line }
    ensures { result ≡ is_named name.now (field_at bytes.now line) }
{
    is_field_name(line.name.of(bytes), name)
}

/// How many lines have the name, in any case.
pub(crate) fn count_named(bytes: &[u8], lines: &[HeaderSpan], name: &[u8]) -> usize
    requires { All (IsHeaderWithin (length bytes.now)) lines.now }
    ensures { result ≡ length (values_of name.now (fields_at bytes.now lines.now)) }
{
    let mut count = 0;
    for line in lines {
        if has_name(bytes, *line, name) {
            count += 1;
        }
    }
    count
}

/// Whether some line has the name, in any case.
pub(crate) fn has_named(bytes: &[u8], lines: &[HeaderSpan], name: &[u8]) -> bool
    requires { All (IsHeaderWithin (length bytes.now)) lines.now }
    ensures { result ≡ has name.now (fields_at bytes.now lines.now) }
{
    count_named(bytes, lines, name) > 0
}

/// The value of the first line that has the name, in any case.
fn first_named<'a>(bytes: &'a [u8], lines: &[HeaderSpan], name: &[u8]) -> Option<&'a [u8]>
    requires { All (IsHeaderWithin (length bytes.now)) lines.now }
    ensures { option_copied result
        ≡ model.first (values_of name.now (fields_at bytes.now lines.now)) }
{
    for line in lines {
        if has_name(bytes, *line, name) {
            return Some(line.value.of(bytes));
        }
    }
    None
}

/// The value of the line that has the name, in any case, if there is just one.
pub(crate) fn only_named<'a>(bytes: &'a [u8], lines: &[HeaderSpan], name: &[u8]) -> Option<&'a [u8]>
    requires { All (IsHeaderWithin (length bytes.now)) lines.now }
    ensures { option_copied result
        ≡ model.only (values_of name.now (fields_at bytes.now lines.now)) }
{
    if count_named(bytes, lines, name) != 1 {
        return None;
    }
    first_named(bytes, lines, name)
}

/// Copies the lines, in their order.
pub(crate) fn copied_fields(
    alloc: Global,
    bytes: &[u8],
    lines: &[HeaderSpan],
) -> Result<List<Field>, AllocError>
    requires { All (IsHeaderWithin (length bytes.now)) lines.now }
    ensures { IfOk result (λ fields. fields ≡ fields_at bytes.now lines.now) }
{
    let mut fields = Vec::with_capacity(alloc, lines.len())?;
    for line in lines {
        fields.push(copied_field(alloc, line.name.of(bytes), line.value.of(bytes))?)?;
    }
    Ok(List::from_vec(fields))
}
