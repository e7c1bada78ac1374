//! Which heads are refused, why, and with which status. Each test looks at the head where it stands, and copies nothing.

ghost use Rattle.std.specs.Prelude.{◌≡◌, ◌≤◌, All, length, take};
ghost use Rattle.httparse.specs.Spans.{IsHeaderWithin, IsRequestWithin, span_bytes};
ghost use Rattle.tow_model.specs.Paths.{place_of};
ghost use Rattle.tow_message.specs.Heads as heads;
ghost use Rattle.tow_request.specs.Lines.{fields_at};
ghost use Rattle.tow_request.specs.Refusals as model;

use crate::codings::codings_of;
use crate::fields::{count_named, has_named};
use crate::framing::is_length_wrong;
use httparse::spans::{HeaderSpan, RequestSpans};
use std::fmt;
use tow_path::has_form;

/// Why a head is refused.
#[derive(Clone, Copy, Debug, PartialEq, Eq)]
pub(crate) enum Refusal {
    /// The bytes begin with no head, and none will come of them.
    NoHead,
    /// There is no Host line in HTTP/1.1, or more than one in either version (RFC 9112, section 3.2).
    WrongHost,
    /// Content-Length stands twice, is not a number, or stands with Transfer-Encoding (RFC 9112, section 6.3).
    WrongLength,
    /// Transfer-Encoding stands in HTTP/1.0, or its last coding is not `chunked` (RFC 9112, sections 6.1 and 6.3).
    WrongCoding,
    /// The target has no form that is served (RFC 9112, section 3.2).
    WrongTarget,
    /// The content has a coding before `chunked`.
    CodedContent,
}

impl Refusal {
    ghost use Rattle.std.specs.Prelude.{◌≡◌};
    ghost use Rattle.tow_request.specs.Refusals as model;

    /// The status of the answer.
    pub(crate) fn status(self) -> u16
        ensures { result ≡ model.status_of self }
    {
        match self {
            Refusal::NoHead
            | Refusal::WrongHost
            | Refusal::WrongLength
            | Refusal::WrongCoding
            | Refusal::WrongTarget => 400,
            Refusal::CodedContent => 501,
        }
    }
}

impl fmt::Display for Refusal {
    fn fmt<W: fmt::Write>(&self, f: &mut fmt::Formatter<W>) -> fmt::Result {
        f.write_str(match self {
            Refusal::NoHead => "these bytes are no request head",
            Refusal::WrongHost => "HTTP/1.1 asks for one Host line",
            Refusal::WrongLength =>
                "the Content-Length is not one number, or stands with Transfer-Encoding",
            Refusal::WrongCoding =>
                "the last transfer coding is not chunked, or the version has none",
            Refusal::WrongTarget => "the target has no form that is served",
            Refusal::CodedContent => "the content has a coding that is not served",
        })
    }
}

fn is_host_wrong(bytes: &[u8], lines: &[HeaderSpan], minor: u8) -> bool
    requires { All (IsHeaderWithin (length bytes.now)) lines.now }
    ensures { result ≡ heads.has_wrong_host minor (fields_at bytes.now lines.now) }
{
    let count = count_named(bytes, lines, b"host");
    count > 1 || minor == 1 && count == 0
}

fn is_coding_wrong(bytes: &[u8], lines: &[HeaderSpan], minor: u8) -> bool
    requires { All (IsHeaderWithin (length bytes.now)) lines.now }
    ensures { result ≡ heads.has_wrong_coding minor (fields_at bytes.now lines.now) }
{
    has_named(bytes, lines, b"transfer-encoding")
        && (minor == 0 || !codings_of(bytes, lines).ends_in_chunked)
}

fn is_coded(bytes: &[u8], lines: &[HeaderSpan]) -> bool
    requires { All (IsHeaderWithin (length bytes.now)) lines.now }
    ensures { result ≡ heads.is_coded (fields_at bytes.now lines.now) }
{
    codings_of(bytes, lines).has_two
}

/// Why the head of these spans is refused, if it is. Takes no memory.
pub(crate) fn refusal_of(
    bytes: &[u8],
    headers: &[HeaderSpan],
    head: RequestSpans,
) -> Option<Refusal>
    requires { IsRequestWithin bytes.now headers.now head }
    ensures { result
        ≡ model.refusal_by head.version (fields_at bytes.now (take head.headers headers.now))
        (place_of (span_bytes bytes.now head.method) (span_bytes bytes.now head.path)) }
{
    let lines = &headers[..head.headers];
    if is_host_wrong(bytes, lines, head.version) {
        return Some(Refusal::WrongHost);
    }
    if is_length_wrong(bytes, lines) {
        return Some(Refusal::WrongLength);
    }
    if is_coding_wrong(bytes, lines, head.version) {
        return Some(Refusal::WrongCoding);
    }
    if !has_form(head.method.of(bytes), head.path.of(bytes)) {
        return Some(Refusal::WrongTarget);
    }
    if is_coded(bytes, lines) {
        return Some(Refusal::CodedContent);
    }
    None
}
