//! What is noted on a value of a call.

ghost use Rattle.std.specs.Prelude.{◌≡◌, ◌==◌, None, Some, bytes_eq, if◌then◌else◌};
ghost use Rattle.std.specs.List.{list_any};
ghost use Rattle.tow_language.specs.Fit as fits;
ghost use Rattle.tow_notes.specs.Values as model;

use crate::remark::Remark;
use http_header::is_token;

/// What is remarked on a value of the call of this name. Takes no memory.
pub fn remark_on(name: &[u8], value: &[u8]) -> Option<Remark>
    ensures { result ≡ model.remark_on name.now value.now }
{
    if is(name, b"method") || is(name, b"allowed-methods") {
        return remark_on_method(value);
    }
    if is(name, b"path") || is(name, b"path-prefix") {
        return remark_on_path(value);
    }
    if is(name, b"path-suffix") {
        return remark_on_decoded(value);
    }
    if is(name, b"access-log") {
        return remark_unless(
            is_format(value) || has_attribute(value),
            Remark::FormatOfText,
        );
    }
    if is(name, b"exists") {
        return remark_unless(has_attribute(value), Remark::ExistsOfText);
    }
    None
}

/// The remark, unless the value is right.
fn remark_unless(right: bool, remark: Remark) -> Option<Remark>
    ensures { result ≡ (if right then None else Some remark) }
{
    if right { None } else { Some(remark) }
}

/// What is remarked on a path that a request's is compared with.
fn remark_on_path(value: &[u8]) -> Option<Remark>
    ensures { result ≡ model.remark_on_path value.now }
{
    if has_star(value) {
        Some(Remark::StarInPath)
    } else {
        remark_on_decoded(value)
    }
}

/// What is remarked on a text that decoded ones are compared with. Takes no memory.
pub fn remark_on_decoded(value: &[u8]) -> Option<Remark>
    ensures { result ≡ model.remark_on_decoded value.now }
{
    remark_unless(!has_escape(value), Remark::EscapeInPath)
}

/// Whether the value is a token (RFC 9110, section 5.6.2).
fn is_method(value: &[u8]) -> bool
    ensures { result ≡ fits.is_method value.now }
{
    is_token(value)
}

/// What is remarked on a method.
fn remark_on_method(value: &[u8]) -> Option<Remark>
    ensures { result ≡ model.remark_on_method value.now }
{
    if has_small_letter(value) {
        Some(Remark::SmallMethod)
    } else {
        remark_unless(is_method(value), Remark::NoMethod)
    }
}

/// Whether the bytes are the same. Takes no memory.
pub fn is(name: &[u8], other: &[u8]) -> bool
    ensures { result ≡ bytes_eq name.now other.now }
{
    name == other
}

fn is_format(value: &[u8]) -> bool
    ensures { result ≡ model.is_format value.now }
{
    is(value, b"common") || is(value, b"combined")
}

fn has_star(value: &[u8]) -> bool
    ensures { result ≡ list_any (λ b. b == 42) value.now }
{
    value.iter().any(|byte| *byte == b'*')
}

fn has_small_letter(value: &[u8]) -> bool
    ensures { result ≡ model.has_small_letter value.now }
{
    value.iter().any(|byte| b'a' <= *byte && *byte <= b'z')
}

/// Whether the value has a percent escape.
fn has_escape(value: &[u8]) -> bool
    ensures { result ≡ model.has_escape value.now }
{
    'places: for at in 0..value.len() {
        if begins_escape(value.split_at(at).1) {
            return true;
        }
    }
    false
}

/// Whether the text begins with `%` and two hexadecimal digits.
fn begins_escape(text: &[u8]) -> bool
    ensures { result ≡ model.begins_escape text.now }
{
    text.len() >= 3 && text[0] == b'%' && is_hex(text[1]) && is_hex(text[2])
}

fn is_hex(byte: u8) -> bool
    ensures { result ≡ model.is_hex byte }
{
    (b'0' <= byte && byte <= b'9')
        || (b'A' <= byte && byte <= b'F')
        || (b'a' <= byte && byte <= b'f')
}

/// Whether the value has the mark of an attribute. Takes no memory.
pub fn has_attribute(value: &[u8]) -> bool
    ensures { result ≡ model.has_attribute value.now }
{
    'places: for at in 0..value.len() {
        if begins_attribute(value.split_at(at).1) {
            return true;
        }
    }
    false
}

/// Whether the text begins with `%` or `${`.
fn begins_attribute(text: &[u8]) -> bool
    ensures { result ≡ model.begins_attribute text.now }
{
    !text.is_empty() && (text[0] == b'%' || (text.len() >= 2 && text[0] == b'$' && text[1] == b'{'))
}
