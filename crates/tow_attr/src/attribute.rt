ghost use Rattle.std.specs.Prelude.{◌≡◌, ◌<◌, ◌==◌, ◌≢◌, [], ◌∷◌, length, slice_index, IfOk, option_map, bytes_eq};
ghost use Rattle.std.specs.Map.{lookup};
ghost use Rattle.tow_model.specs.declared.attribute.Piece.TheVariants as pieces;
ghost use Rattle.tow_model.specs.declared.attribute.Attribute.TheVariants as attributes;
ghost use Rattle.tow_language.specs.Templates.{by_letter, by_word, by_kind, field_named, any_named, in_percent_brace, piece_of};

use http_header::{HeaderName, HeaderNameError};
use std::alloc::{AllocError, Global};
use tow_model::{Attribute, Bytes};

/// The attribute that is spelled so: `%` and a letter, or a form in braces.
pub fn read_attribute(alloc: Global, spelled: &[u8]) -> Result<Option<Attribute>, AllocError>
    requires length { 1 < length spelled.now }
    requires plain { slice_index spelled.now 1 ≢ 37 }
    ensures { IfOk result (λ found. piece_of spelled.now ≡ option_map pieces.Value found) }
{
    if spelled.len() == 2 {
        return Ok(by_letter(spelled[1]));
    }
    let inside = &spelled[2..spelled.len() - 1];
    if spelled[0] == b'$' {
        context(alloc, inside)
    } else {
        in_percent_brace(alloc, inside)
    }
}

/// The attribute of `%` and the letter.
fn by_letter(letter: u8) -> Option<Attribute>
    ensures { result ≡ lookup (λ k. k == letter) by_letter }
{
    match letter {
        b'm' => Some(Attribute::Method),
        b'U' => Some(Attribute::RequestUrl),
        b'R' => Some(Attribute::RelativePath),
        b'q' => Some(Attribute::Query),
        b's' => Some(Attribute::Status),
        b'r' => Some(Attribute::RequestLine),
        b'H' => Some(Attribute::Protocol),
        b'a' => Some(Attribute::RemoteIp),
        b'h' => Some(Attribute::RemoteHost),
        b'l' => Some(Attribute::Ident),
        b'u' => Some(Attribute::User),
        b't' => Some(Attribute::Moment),
        b'B' => Some(Attribute::Sent),
        b'b' => Some(Attribute::SentOrDash),
        _ => None,
    }
}

/// The attribute of `%{..}` with the word inside.
fn by_word(word: &[u8]) -> Option<Attribute>
    ensures { result ≡ lookup (bytes_eq word.now) by_word }
{
    if is_word(word, b"METHOD") {
        return Some(Attribute::Method);
    }
    if is_word(word, b"REQUEST_URL") {
        return Some(Attribute::RequestUrl);
    }
    if is_word(word, b"RELATIVE_PATH") {
        return Some(Attribute::RelativePath);
    }
    if is_word(word, b"QUERY_STRING") {
        return Some(Attribute::Query);
    }
    if is_word(word, b"RESPONSE_CODE") {
        return Some(Attribute::Status);
    }
    if is_word(word, b"REQUEST_LINE") {
        return Some(Attribute::RequestLine);
    }
    if is_word(word, b"PROTOCOL") {
        return Some(Attribute::Protocol);
    }
    if is_word(word, b"REMOTE_IP") {
        return Some(Attribute::RemoteIp);
    }
    if is_word(word, b"REMOTE_HOST") {
        return Some(Attribute::RemoteHost);
    }
    if is_word(word, b"REMOTE_USER") {
        return Some(Attribute::User);
    }
    if is_word(word, b"DATE_TIME") {
        return Some(Attribute::Moment);
    }
    if is_word(word, b"BYTES_SENT") {
        return Some(Attribute::Sent);
    }
    None
}

fn is_word(word: &[u8], other: &[u8]) -> bool
    ensures { result ≡ bytes_eq word.now other.now }
{
    word == other
}

/// The attribute of `%{..}` with these bytes inside.
fn in_percent_brace(alloc: Global, inside: &[u8]) -> Result<Option<Attribute>, AllocError>
    ensures { IfOk result (λ found. found ≡ in_percent_brace inside.now) }
{
    if inside.len() < 2 || inside[1] != b',' {
        return Ok(by_word(inside));
    }
    by_kind(alloc, inside[0], &inside[2..])
}

/// The attribute of `%{kind,name}`.
fn by_kind(alloc: Global, kind: u8, name: &[u8]) -> Result<Option<Attribute>, AllocError>
    ensures { IfOk result (λ found. found ≡ by_kind (kind ∷ []) name.now) }
{
    match kind {
        b'i' => Ok(field_named(alloc, name)?.map(Attribute::RequestField)),
        b'o' => Ok(field_named(alloc, name)?.map(Attribute::ResponseField)),
        b'q' => Ok(any_named(alloc, name)?.map(Attribute::Param)),
        b'c' => Ok(any_named(alloc, name)?.map(Attribute::Cookie)),
        _ => Ok(None),
    }
}

/// The attribute of `${name}`.
fn context(alloc: Global, name: &[u8]) -> Result<Option<Attribute>, AllocError>
    ensures { IfOk result (λ found. found ≡ option_map attributes.Context (any_named name.now)) }
{
    Ok(any_named(alloc, name)?.map(Attribute::Context))
}

/// A field's name in lower case, where it is one (RFC 9110, section 5.1).
fn field_named(alloc: Global, name: &[u8]) -> Result<Option<Bytes>, AllocError>
    ensures { IfOk result (λ found. found ≡ field_named name.now) }
{
    match HeaderName::from_bytes(alloc, name) {
        Ok(field) => Ok(Some(Bytes::from_slice(alloc, field.as_bytes())?)),
        Err(HeaderNameError::Invalid) => Ok(None),
        Err(HeaderNameError::OutOfMemory) => Err(AllocError),
    }
}

/// A name that is not empty.
fn any_named(alloc: Global, name: &[u8]) -> Result<Option<Bytes>, AllocError>
    ensures { IfOk result (λ found. found ≡ any_named name.now) }
{
    if name.is_empty() {
        return Ok(None);
    }
    Ok(Some(Bytes::from_slice(alloc, name)?))
}
