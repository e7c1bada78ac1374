//! The elements of list fields: what stands between commas, without the blanks around it (RFC 9110, section 5.6.1).

ghost use Rattle.std.specs.Prelude.{◌≡◌, ◌&&◌, [], ◌∷◌, All, length, not};
ghost use Rattle.std.specs.List.{list_any};
ghost use Rattle.std.specs.Str.{bytes_eq};
ghost use Rattle.http_header.specs.Token.{lowercase};
ghost use Rattle.httparse.specs.Spans.{IsHeaderWithin};
ghost use Rattle.tow_model.specs.Fields.{elements, values_of};
ghost use Rattle.tow_model.specs.Texts.{is_empty, trimmed};
ghost use Rattle.tow_request.specs.Lines.{elements_in, field_at, fields_at};

use crate::fields::has_name;
use httparse::spans::HeaderSpan;
use tow_text::trimmed;

/// Whether some line of the name lists the word, both in any case.
pub(crate) fn has_listed(bytes: &[u8], lines: &[HeaderSpan], name: &[u8], word: &[u8]) -> bool
    requires { All (IsHeaderWithin (length bytes.now)) lines.now }
    ensures { result
        ≡ list_any (bytes_eq (lowercase word.now))
        (elements (values_of name.now (fields_at bytes.now lines.now))) }
{
    let mut is_listed = false;
    for line in lines {
        if lists_word(bytes, *line, name, word) {
            is_listed = true;
        }
    }
    is_listed
}

/// Whether the line has the name and lists the word, both in any case.
fn lists_word(bytes: &[u8], line: HeaderSpan, name: &[u8], word: &[u8]) -> bool
    requires { IsHeaderWithin (length bytes.now) line }
    ensures { result
        ≡ list_any (bytes_eq (lowercase word.now)) (elements_in name.now (field_at bytes.now line)) }
{
    has_name(bytes, line, name) && has_element(line.value.of(bytes), word)
}

/// Whether the word is an element of the value, in any case.
fn has_element(value: &[u8], word: &[u8]) -> bool
    ensures { result ≡ list_any (bytes_eq (lowercase word.now)) (elements (value.now ∷ [])) }
{
    value
        .split(|byte| *byte == b',')
        .any(|piece| is_element(piece, word))
}

/// Whether the piece between two commas is the word, in any case. An empty piece is no element.
fn is_element(piece: &[u8], word: &[u8]) -> bool
    ensures { result
        ≡ (not (is_empty (trimmed piece.now))
        && bytes_eq (lowercase word.now) (lowercase (trimmed piece.now))) }
{
    let element = trimmed(piece);
    !element.is_empty() && word.eq_ignore_ascii_case(element)
}
