//! How the content of a request is framed (RFC 9112, section 6.3).

ghost use Rattle.std.specs.Prelude.{◌≡◌, All, codes, false, length};
ghost use Rattle.httparse.specs.Spans.{IsHeaderWithin};
ghost use Rattle.tow_model.specs.Fields.{values_of};
ghost use Rattle.tow_message.specs.Heads as heads;
ghost use Rattle.tow_request.specs.Lines.{fields_at};

use crate::fields::{has_named, only_named};
use httparse::spans::HeaderSpan;
use tow_model::Framing;
use tow_text::{are_digits, number_up_to};

/// The greatest length that is told from longer ones.
const MOST_LENGTH: u64 = 1 << 63;

/// Whether the text is one or more digits.
fn is_number(text: &[u8]) -> bool
    ensures { result ≡ heads.is_number text.now }
{
    !text.is_empty() && are_digits(text)
}

/// Whether there are two Content-Length lines or more, or one that is not a number.
fn is_no_length(bytes: &[u8], lines: &[HeaderSpan]) -> bool
    requires { All (IsHeaderWithin (length bytes.now)) lines.now }
    ensures { result
        ≡ heads.is_no_length (values_of (codes "content-length") (fields_at bytes.now lines.now)) }
{
    match only_named(bytes, lines, b"content-length") {
        Some(value) => !is_number(value),
        None => has_named(bytes, lines, b"content-length"),
    }
}

/// Whether Content-Length stands twice, is not a number, or stands with Transfer-Encoding.
pub(crate) fn is_length_wrong(bytes: &[u8], lines: &[HeaderSpan]) -> bool
    requires { All (IsHeaderWithin (length bytes.now)) lines.now }
    ensures { result ≡ heads.has_wrong_length (fields_at bytes.now lines.now) }
{
    is_no_length(bytes, lines)
        || has_named(bytes, lines, b"content-length")
            && has_named(bytes, lines, b"transfer-encoding")
}

/// The framing, if the lengths are not wrong.
pub(crate) fn framing_of(bytes: &[u8], lines: &[HeaderSpan]) -> Framing
    requires within { All (IsHeaderWithin (length bytes.now)) lines.now }
    requires right { heads.has_wrong_length (fields_at bytes.now lines.now) ≡ false }
    ensures { result ≡ heads.framing_of (fields_at bytes.now lines.now) }
{
    if has_named(bytes, lines, b"transfer-encoding") {
        return Framing::Chunked;
    }
    match only_named(bytes, lines, b"content-length") {
        Some(value) => Framing::Fixed(number_up_to(MOST_LENGTH, value)),
        None => Framing::Empty,
    }
}

/// Whether there is content.
pub(crate) fn has_content(framing: Framing) -> bool
    ensures { result ≡ heads.has_content framing }
{
    match framing {
        Framing::Empty => false,
        Framing::Fixed(len) => len > 0,
        Framing::Chunked => true,
    }
}
