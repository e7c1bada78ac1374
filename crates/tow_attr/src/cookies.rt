//! The cookies of a request: `name=value`, with `;` and blanks between them, in one field line or more (RFC 6265, section 4.2.1).

ghost use Rattle.std.specs.Prelude.{◌≡◌, ◌++◌, OnOk, find, flat_map};
ghost use Rattle.std.specs.Option.{option_copied};
ghost use Rattle.tow_model.specs.Fields.{bound_to};
ghost use Rattle.tow_model.specs.Texts.{trimmed};
ghost use Rattle.tow_semantics.specs.Values.{or_empty};
ghost use Rattle.tow_attr.specs.Finding.{cookie_pieces, cookies_of, is_cookie};

use crate::binding::{name_of, value_of};
use crate::fields::has_name;
use std::alloc::AllocError;
use tow_model::Field;
use tow_text::trimmed;

/// Writes the value of the first cookie of the name. Takes memory for the value alone.
pub(crate) fn append_cookie(
    out: &mut Vec<u8>,
    fields: &[Field],
    name: &[u8],
) -> Result<(), AllocError>
    ensures { OnOk result (out.new.items
        ≡ out.old.items ++ or_empty (bound_to name.now (cookies_of fields.now))) }
{
    match first_cookie(fields, name) {
        Some(cookie) => out.extend_from_slice(value_of(trimmed(cookie))),
        None => Ok(()),
    }
}

/// The first cookie of the name among all Cookie lines, with the blanks around it.
fn first_cookie<'a>(fields: &'a [Field], name: &[u8]) -> Option<&'a [u8]>
    ensures { option_copied result ≡ find (is_cookie name.now) (flat_map cookie_pieces fields.now) }
{
    for field in fields {
        if let Some(cookie) = cookie_in(field, name) {
            return Some(cookie);
        }
    }
    None
}

/// The first cookie of the name in a line, where it is a Cookie line.
fn cookie_in<'a>(field: &'a Field, name: &[u8]) -> Option<&'a [u8]>
    ensures { option_copied result ≡ find (is_cookie name.now) (cookie_pieces field.now) }
{
    if !has_name(field, b"cookie") {
        return None;
    }
    field
        .value
        .as_slice()
        .split(|b| *b == b';')
        .find(|cookie| is_cookie(cookie, name))
}

/// Whether the cookie has the name.
fn is_cookie(cookie: &[u8], name: &[u8]) -> bool
    ensures { result ≡ is_cookie name.now cookie.now }
{
    name_of(trimmed(cookie)) == name
}
