//! The request that a served head is.

ghost use Rattle.std.specs.Prelude.{◌≡◌, All, IfOk, Some, codes, false, length, take};
ghost use Rattle.httparse.specs.Grammar.{RequestHead};
ghost use Rattle.httparse.specs.Spans.{IsHeaderWithin, IsRequestAt, IsRequestWithin};
ghost use Rattle.tow_model.specs.Fields.{elements, values_of};
ghost use Rattle.tow_message.specs.Heads as heads;
ghost use Rattle.tow_message.specs.Heads.{fields_of, has_wrong_length, request_of};
ghost use Rattle.tow_model.specs.Paths.{place_of};
ghost use Rattle.tow_request.specs.Lines.{fields_at};
ghost use Rattle.tow_request.specs.Refusals as model;

use crate::elements::has_listed;
use crate::fields::{copied_fields, only_named};
use crate::framing::{framing_of, has_content};
use httparse::spans::{HeaderSpan, RequestSpans};
use std::alloc::{AllocError, Global};
use tow_model::{Bytes, Framing, Request, Version};

/// What the target of a head names.
#[derive(Debug, Drop)]
pub(crate) struct Place {
    pub url: Bytes,
    pub path: Bytes,
    pub query: Option<Bytes>,
}

fn version_of(minor: u8) -> Version
    ensures { result ≡ heads.version_by minor }
{
    if minor == 1 {
        Version::V11
    } else {
        Version::V10
    }
}

/// Whether the one Expect value is `100-continue`, in any case.
fn is_continue(bytes: &[u8], lines: &[HeaderSpan]) -> bool
    requires { All (IsHeaderWithin (length bytes.now)) lines.now }
    ensures { result
        ≡ heads.is_continue (values_of (codes "expect") (fields_at bytes.now lines.now)) }
{
    match only_named(bytes, lines, b"expect") {
        Some(value) => value.eq_ignore_ascii_case(b"100-continue"),
        None => false,
    }
}

/// Whether the client waits for leave to send the content (RFC 9110, section 10.1.1).
fn is_expecting(bytes: &[u8], lines: &[HeaderSpan], version: Version, framing: Framing) -> bool
    requires within { All (IsHeaderWithin (length bytes.now)) lines.now }
    requires framing { framing ≡ heads.framing_of (fields_at bytes.now lines.now) }
    ensures { result ≡ heads.expects_by version (fields_at bytes.now lines.now) }
{
    match version {
        Version::V10 => false,
        Version::V11 => is_continue(bytes, lines) && has_content(framing),
    }
}

/// Whether the client keeps the connection (RFC 9112, section 9.3).
fn is_kept(bytes: &[u8], lines: &[HeaderSpan], version: Version) -> bool
    requires { All (IsHeaderWithin (length bytes.now)) lines.now }
    ensures { result
        ≡ heads.keeps version (elements
        (values_of (codes "connection") (fields_at bytes.now lines.now))) }
{
    match version {
        Version::V11 => !has_listed(bytes, lines, b"connection", b"close"),
        Version::V10 => {
            has_listed(bytes, lines, b"connection", b"keep-alive")
                && !has_listed(bytes, lines, b"connection", b"close")
        }
    }
}

/// The request of a head that is not refused, whose target names the place. Copies the method, the target and the fields.
pub(crate) fn copied_request(
    alloc: Global,
    bytes: &[u8],
    headers: &[HeaderSpan],
    head: RequestSpans,
    place: Place,
    peer: u32,
) -> Result<Request, AllocError>
    requires within { IsRequestWithin bytes.now headers.now head }
    requires right { has_wrong_length (fields_at bytes.now (take head.headers headers.now))
        ≡ false }
    ensures { IfOk result (λ q. (h : RequestHead) → IsRequestAt bytes.now headers.now head h
        → place_of h.method h.target ≡ Some (model.place_by place) → request_of peer h ≡ q) }
{
    let lines = &headers[..head.headers];
    let version = version_of(head.version);
    let framing = framing_of(bytes, lines);
    let method = Bytes::from_slice(alloc, head.method.of(bytes))?;
    let target = Bytes::from_slice(alloc, head.path.of(bytes))?;
    let fields = copied_fields(alloc, bytes, lines)?;
    Ok(Request {
        method,
        target,
        version,
        fields,
        url: place.url,
        path: place.path,
        query: place.query,
        framing,
        expects: is_expecting(bytes, lines, version, framing),
        keep: is_kept(bytes, lines, version),
        peer,
    })
}
