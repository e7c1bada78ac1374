//! The codings of Transfer-Encoding lines (RFC 9112, section 6.1).

ghost use Rattle.std.specs.Prelude.{◌≡◌, ◌∷◌, ◌++◌, [], All, List, length, codes, if◌then◌else◌};
ghost use Rattle.http_header.specs.Token.{lowercase};
ghost use Rattle.httparse.specs.Spans.{IsHeaderWithin};
ghost use Rattle.tow_model.specs.Texts.{Text, is_empty};
ghost use Rattle.tow_model.specs.Fields.{elements};
ghost use Rattle.tow_message.specs.Heads.{codings_of};
ghost use Rattle.tow_request.specs.Lines.{elements_in, field_at, fields_at};
ghost use Rattle.tow_request.specs.Refusals.{Sums};

use crate::fields::has_name;
use httparse::spans::HeaderSpan;
use tow_text::trimmed;

/// What is known of a list of codings.
#[derive(Clone, Copy)]
pub(crate) struct Codings {
    /// There is one or more.
    pub has_one: bool,
    /// There are two or more.
    pub has_two: bool,
    /// The last one is `chunked`.
    pub ends_in_chunked: bool,
}

/// The codings of all Transfer-Encoding lines.
pub(crate) fn codings_of(bytes: &[u8], lines: &[HeaderSpan]) -> Codings
    requires { All (IsHeaderWithin (length bytes.now)) lines.now }
    ensures { Sums (codings_of (fields_at bytes.now lines.now)) result }
{
    let mut codings = Codings {
        has_one: false,
        has_two: false,
        ends_in_chunked: false,
    };
    for line in lines {
        codings = with_line(codings, bytes, *line);
    }
    codings
}

/// The codings so far, and those of the line.
fn with_line(codings: Codings, bytes: &[u8], line: HeaderSpan) -> Codings
    requires { IsHeaderWithin (length bytes.now) line }
    ensures { (before : List Text) → Sums before codings
        → Sums (before
        ++ elements_in (codes "transfer-encoding") (field_at bytes.now line)) result }
{
    if has_name(bytes, line, b"transfer-encoding") {
        with_value(codings, line.value.of(bytes))
    } else {
        codings
    }
}

/// The codings so far, and those that the value lists.
fn with_value(codings: Codings, value: &[u8]) -> Codings
    ensures { (before : List Text) → Sums before codings
        → Sums (before ++ elements (value.now ∷ [])) result }
{
    let mut longer = codings;
    for piece in value.split(|byte| *byte == b',') {
        longer = with_element(longer, trimmed(piece));
    }
    longer
}

/// The codings so far, and one more where the element is not empty.
fn with_element(codings: Codings, element: &[u8]) -> Codings
    ensures { (before : List Text) → Sums before codings
        → Sums (before
        ++ (if is_empty element.now then [] else lowercase element.now ∷ [])) result }
{
    if element.is_empty() {
        return codings;
    }
    Codings {
        has_one: true,
        has_two: codings.has_one,
        ends_in_chunked: element.eq_ignore_ascii_case(b"chunked"),
    }
}
