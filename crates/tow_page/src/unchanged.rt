//! Whether a client has a file as it is (RFC 9110, section 13.1.3).

ghost use Rattle.std.specs.Prelude.{◌≡◌, ◌<◌, ◌∷◌, [], IsTrue, codes};
ghost use Rattle.std.specs.Option.{option_copied};
ghost use Rattle.tow_model.specs.Fields.{values_of};
ghost use Rattle.tow_model.specs.declared.limits.TheConstants.{FIRST_UNDATED};
ghost use Rattle.tow_semantics.specs.Pages as model;
ghost use Rattle.tow_page.specs.Answers.{only};

use httpdate::HttpDate;
use tow_model::{Field, Record, Request};
use tow_text::{has_field, has_name};

/// Whether the one date of If-Modified-Since is not before the second, where the status is 200 and
/// there is no If-None-Match. Takes no memory.
pub(crate) fn is_unchanged(request: &Request, x: &Record, second: u64) -> bool
    ensures value { result ≡ model.is_unchanged request.now x.now second }
    ensures dated { IsTrue result → second < FIRST_UNDATED }
{
    let fields = request.fields.as_slice();
    x.status == 200 && !has_field(fields, b"if-none-match") && is_not_later(fields, second)
}

/// Whether there is one If-Modified-Since, and it is a date that the second does not come after.
fn is_not_later(fields: &[Field], second: u64) -> bool
    ensures value { result
        ≡ model.is_not_later second (values_of (codes "if-modified-since") fields.now) }
    ensures dated { IsTrue result → second < FIRST_UNDATED }
{
    match only_value(fields, b"if-modified-since") {
        Some(value) => is_at_most(second, value),
        None => false,
    }
}

/// Whether the text is a date that the second does not come after.
fn is_at_most(second: u64, text: &[u8]) -> bool
    ensures value { result ≡ model.is_not_later second (text.now ∷ []) }
    ensures dated { IsTrue result → second < FIRST_UNDATED }
{
    match HttpDate::parse_ascii(text) {
        Ok(date) => second <= date.unix_secs(),
        Err(_) => false,
    }
}

/// The value of the one line of the name, if there is just one.
fn only_value<'a>(fields: &'a [Field], name: &[u8]) -> Option<&'a [u8]>
    ensures { option_copied result ≡ only (values_of name.now fields.now) }
{
    for (at, field) in fields.iter().enumerate() {
        if has_name(field, name) {
            if has_field(&fields[at + 1..], name) {
                return None;
            }
            return Some(field.value.as_slice());
        }
    }
    None
}
