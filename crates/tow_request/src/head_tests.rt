//! Heads written by hand: how they are refused, and what is read of those that are served.

ghost use Rattle.std.specs.Prelude.{◌≤◌, length};

use crate::refusals::Refusal;
use crate::{NextHead, next_head};
use std::alloc::Global;
use std::test::Fail;
use tow_model::limits::{LOCAL_PEER, MAX_HEAD_LEN};
use tow_model::{Bytes, Framing, Request, Version};

/// Heads that are refused, with their statuses.
const REFUSED: [(&str, u16); 27] = [
    ("GET /hi HTTP/1.1\r\n\r\n", 400),
    ("GET /hi HTTP/1.1\r\nHost: a\r\nhost: a\r\n\r\n", 400),
    ("GET /hi HTTP/1.0\r\nHost: a\r\nHost: b\r\n\r\n", 400),
    ("GET /hi HTTP/1.1\r\nConnection: close\r\n\r\n", 400),
    ("GET a HTTP/1.1\r\nHost: a\r\n\r\n", 400),
    ("GET a HTTP/1.0\r\n\r\n", 400),
    ("GET * HTTP/1.1\r\nHost: a\r\n\r\n", 400),
    ("GET http:///a HTTP/1.1\r\nHost: a\r\n\r\n", 400),
    ("GET http://?a HTTP/1.1\r\nHost: a\r\n\r\n", 400),
    ("GET https:// HTTP/1.1\r\nHost: a\r\n\r\n", 400),
    (
        "GET /hi HTTP/1.1\r\nHost: a\r\nContent-Length: 3\r\ncontent-length: 3\r\n\r\n",
        400,
    ),
    (
        "GET /hi HTTP/1.1\r\nHost: a\r\nContent-Length:\r\n\r\n",
        400,
    ),
    (
        "GET /hi HTTP/1.1\r\nHost: a\r\nContent-Length: 1a\r\n\r\n",
        400,
    ),
    (
        "GET /hi HTTP/1.1\r\nHost: a\r\nContent-Length: -1\r\n\r\n",
        400,
    ),
    (
        "GET /hi HTTP/1.1\r\nHost: a\r\nContent-Length: 1, 1\r\n\r\n",
        400,
    ),
    (
        "GET /hi HTTP/1.1\r\nHost: a\r\nContent-Length: 3\r\nTransfer-Encoding: chunked\r\n\r\n",
        400,
    ),
    (
        "GET /hi HTTP/1.0\r\nHost: a\r\nTransfer-Encoding: chunked\r\n\r\n",
        400,
    ),
    (
        "GET /hi HTTP/1.1\r\nHost: a\r\nTransfer-Encoding: gzip\r\n\r\n",
        400,
    ),
    (
        "GET /hi HTTP/1.1\r\nHost: a\r\nTransfer-Encoding:\r\n\r\n",
        400,
    ),
    (
        "GET /hi HTTP/1.1\r\nHost: a\r\nTransfer-Encoding: , ,\r\n\r\n",
        400,
    ),
    (
        "GET /hi HTTP/1.1\r\nHost: a\r\nTransfer-Encoding: chunked, gzip\r\n\r\n",
        400,
    ),
    (
        "GET /hi HTTP/1.1\r\nHost: a\r\nTransfer-Encoding: chunked\r\nTransfer-Encoding: gzip\r\n\r\n",
        400,
    ),
    (
        "GET /hi HTTP/1.1\r\nHost: a\r\nTransfer-Encoding: chunked;a\r\n\r\n",
        400,
    ),
    (
        "GET a HTTP/1.1\r\nHost: a\r\nTransfer-Encoding: gzip, chunked\r\n\r\n",
        400,
    ),
    (
        "GET /hi HTTP/1.1\r\nHost: a\r\nTransfer-Encoding: gzip, chunked\r\n\r\n",
        501,
    ),
    (
        "GET /hi HTTP/1.1\r\nHost: a\r\nTransfer-Encoding: chunked, chunked\r\n\r\n",
        501,
    ),
    (
        "GET /hi HTTP/1.1\r\nHost: a\r\nTransfer-Encoding: gzip\r\ntransfer-encoding:,CHUNKED ,\r\n\r\n",
        501,
    ),
];

#[test]
fn heads_are_refused(rt: HostRuntime) {
    let alloc = rt.alloc();
    for (i, (head, wanted)) in REFUSED.iter().enumerate() {
        assert!(rt; is_refused(alloc, head.as_bytes(), *wanted), "row {i}");
    }
}

fn is_refused(alloc: Global, head: &[u8], wanted: u16) -> bool {
    head.len() <= MAX_HEAD_LEN
        && matches!(&next_head(alloc, head, false, LOCAL_PEER), NextHead::Refuse(status) if *status == wanted)
}

/// The request of a text that is one whole head.
fn request_of(alloc: Global, head: &[u8]) -> Option<Request> {
    if head.len() > MAX_HEAD_LEN {
        return None;
    }
    match next_head(alloc, head, false, LOCAL_PEER) {
        NextHead::Head(request, used) => {
            if used == head.len() {
                Some(request)
            } else {
                None
            }
        }
        _ => None,
    }
}

/// A url, a path and a query.
type Named = (&'static str, &'static str, Option<&'static str>);

/// Heads, and what their targets name.
const TARGETS: [(&str, Named); 8] = [
    ("GET / HTTP/1.1\r\nHost: a\r\n\r\n", ("/", "/", None)),
    (
        "GET //.c/..b/... HTTP/1.1\r\nHost: a\r\n\r\n",
        ("//.c/..b/...", "//.c/..b/...", None),
    ),
    (
        "GET /x/../a%20b?c%20?d HTTP/1.1\r\nHost: a\r\n\r\n",
        ("/x/../a%20b", "/a b", Some("c%20?d")),
    ),
    (
        "GET /a/./%2e%2E/%zz? HTTP/1.1\r\nHost: a\r\n\r\n",
        ("/a/./%2e%2E/%zz", "/%zz", Some("")),
    ),
    (
        "GET http://h/a/?b HTTP/1.1\r\nHost: a\r\n\r\n",
        ("/a/", "/a/", Some("b")),
    ),
    (
        "GET HttpS://h HTTP/1.1\r\nHost: a\r\n\r\n",
        ("/", "/", None),
    ),
    ("GET http://h?a/b HTTP/1.0\r\n\r\n", ("/", "/", Some("a/b"))),
    ("OPTIONS * HTTP/1.1\r\nHost: a\r\n\r\n", ("*", "*", None)),
];

#[test]
fn targets_are_read(rt: HostRuntime) {
    let alloc = rt.alloc();
    for (i, (head, wanted)) in TARGETS.iter().enumerate() {
        assert!(rt; names(alloc, head.as_bytes(), *wanted), "row {i}");
    }
}

fn names(alloc: Global, head: &[u8], wanted: Named) -> bool {
    let (url, path, query) = wanted;
    match request_of(alloc, head) {
        Some(request) => {
            request.url.as_slice() == url.as_bytes()
                && request.path.as_slice() == path.as_bytes()
                && is_query(&request.query, query)
        }
        None => false,
    }
}

fn is_query(query: &Option<Bytes>, wanted: Option<&str>) -> bool {
    match (query, wanted) {
        (Some(query), Some(wanted)) => query.as_slice() == wanted.as_bytes(),
        (None, None) => true,
        _ => false,
    }
}

/// The version, the framing, whether leave to send is awaited, and whether the connection is kept.
type Framed = (Version, Framing, bool, bool);

/// Heads, and what their versions and fields say.
const FRAMED: [(&str, Framed); 23] = [
    (
        "GET /hi HTTP/1.1\r\nHost: a\r\n\r\n",
        (Version::V11, Framing::Empty, false, true),
    ),
    (
        "GET /hi HTTP/1.1\r\nHost: a\r\nContent-Length: 0\r\n\r\n",
        (Version::V11, Framing::Fixed(0), false, true),
    ),
    (
        "GET /hi HTTP/1.1\r\nHost: a\r\nContent-Length: 007\r\n\r\n",
        (Version::V11, Framing::Fixed(7), false, true),
    ),
    (
        "GET /hi HTTP/1.1\r\nHost: a\r\ncontent-length:\t12 \r\n\r\n",
        (Version::V11, Framing::Fixed(12), false, true),
    ),
    (
        "GET /hi HTTP/1.1\r\nHost: a\r\nContent-Length: 9223372036854775807\r\n\r\n",
        (
            Version::V11,
            Framing::Fixed(9223372036854775807),
            false,
            true,
        ),
    ),
    (
        "GET /hi HTTP/1.1\r\nHost: a\r\nContent-Length: 9223372036854775809\r\n\r\n",
        (
            Version::V11,
            Framing::Fixed(9223372036854775808),
            false,
            true,
        ),
    ),
    (
        "GET /hi HTTP/1.1\r\nHost: a\r\nContent-Length: 123456789012345678901234567890\r\n\r\n",
        (
            Version::V11,
            Framing::Fixed(9223372036854775808),
            false,
            true,
        ),
    ),
    (
        "GET /hi HTTP/1.1\r\nHost: a\r\nContent-Length: 000000000000000000000000000001\r\n\r\n",
        (Version::V11, Framing::Fixed(1), false, true),
    ),
    (
        "GET /hi HTTP/1.1\r\nHost: a\r\nTransfer-Encoding: chunked\r\n\r\n",
        (Version::V11, Framing::Chunked, false, true),
    ),
    (
        "GET /hi HTTP/1.1\r\nHost: a\r\nTransfer-Encoding: ,\r\nTRANSFER-ENCODING:\t,Chunked ,\r\n\r\n",
        (Version::V11, Framing::Chunked, false, true),
    ),
    (
        "GET /hi HTTP/1.1\r\nHost: a\r\nConnection: close\r\n\r\n",
        (Version::V11, Framing::Empty, false, false),
    ),
    (
        "GET /hi HTTP/1.1\r\nHost: a\r\nConnection: keep-alive, x\r\nconnection: y ,\tClose\r\n\r\n",
        (Version::V11, Framing::Empty, false, false),
    ),
    (
        "GET /hi HTTP/1.1\r\nHost: a\r\nConnection: closed, clos\r\n\r\n",
        (Version::V11, Framing::Empty, false, true),
    ),
    (
        "GET /hi HTTP/1.0\r\n\r\n",
        (Version::V10, Framing::Empty, false, false),
    ),
    (
        "GET /hi HTTP/1.0\r\nHost: a\r\nConnection: a\r\nConnection:Keep-Alive\r\n\r\n",
        (Version::V10, Framing::Empty, false, true),
    ),
    (
        "GET /hi HTTP/1.0\r\nHost: a\r\nConnection: keep-alive\r\nConnection: close\r\n\r\n",
        (Version::V10, Framing::Empty, false, false),
    ),
    (
        "GET /hi HTTP/1.0\r\nHost: a\r\nContent-Length: 5\r\nExpect: 100-continue\r\n\r\n",
        (Version::V10, Framing::Fixed(5), false, false),
    ),
    (
        "GET /hi HTTP/1.1\r\nHost: a\r\nContent-Length: 3\r\nExpect: 100-Continue\r\n\r\n",
        (Version::V11, Framing::Fixed(3), true, true),
    ),
    (
        "GET /hi HTTP/1.1\r\nHost: a\r\nTransfer-Encoding: chunked\r\nexpect: 100-continue\r\n\r\n",
        (Version::V11, Framing::Chunked, true, true),
    ),
    (
        "GET /hi HTTP/1.1\r\nHost: a\r\nExpect: 100-continue\r\n\r\n",
        (Version::V11, Framing::Empty, false, true),
    ),
    (
        "GET /hi HTTP/1.1\r\nHost: a\r\nExpect: 100-continue\r\nContent-Length: 0\r\n\r\n",
        (Version::V11, Framing::Fixed(0), false, true),
    ),
    (
        "GET /hi HTTP/1.1\r\nHost: a\r\nContent-Length: 3\r\nExpect: 100-continue\r\nExpect: 100-continue\r\n\r\n",
        (Version::V11, Framing::Fixed(3), false, true),
    ),
    (
        "GET /hi HTTP/1.1\r\nHost: a\r\nContent-Length: 3\r\nExpect: 100-continue, a\r\n\r\n",
        (Version::V11, Framing::Fixed(3), false, true),
    ),
];

#[test]
fn fields_are_read(rt: HostRuntime) {
    let alloc = rt.alloc();
    for (i, (head, wanted)) in FRAMED.iter().enumerate() {
        assert!(rt; is_framed(alloc, head.as_bytes(), *wanted), "row {i}");
    }
}

fn is_framed(alloc: Global, head: &[u8], wanted: Framed) -> bool {
    let (version, framing, expects, keep) = wanted;
    match request_of(alloc, head) {
        Some(request) => {
            request.version == version
                && request.framing == framing
                && request.expects == expects
                && request.keep == keep
        }
        None => false,
    }
}

#[test]
fn a_request_has_the_parts_of_its_head(rt: HostRuntime) -> Result<(), Fail> {
    let text =
        b"\r\nPUT /a//b/ HTTP/1.1\r\nHost: a:80\r\nX-List:\t 1,  2 \t\r\nempty:   \r\n\r\nGET";
    let NextHead::Head(request, used) = next_head(rt.alloc(), text, false, LOCAL_PEER) else {
        return Err("there is a head".into());
    };
    assert_eq!(rt; used, 66);
    assert_eq!(rt; request.method.as_slice(), b"PUT".as_slice());
    assert_eq!(rt; request.target.as_slice(), b"/a//b/".as_slice());
    assert_eq!(rt; request.version, Version::V11);
    assert_eq!(rt; request.url.as_slice(), b"/a//b/".as_slice());
    assert_eq!(rt; request.path.as_slice(), b"/a//b/".as_slice());
    assert!(rt; request.query.is_none());
    assert_eq!(rt; request.framing, Framing::Empty);
    assert!(rt; request.keep && !request.expects);
    assert_eq!(rt; request.peer, LOCAL_PEER);
    let want = [("Host", "a:80"), ("X-List", "1,  2"), ("empty", "")];
    assert_eq!(rt; request.fields.len(), want.len());
    for (field, (name, value)) in request.fields.as_slice().iter().zip(want) {
        assert_eq!(rt; field.name.as_slice(), name.as_bytes());
        assert_eq!(rt; field.value.as_slice(), value.as_bytes());
    }
    Ok(())
}

/// Why heads are refused, as a person reads it, and the statuses.
const REASONS: [(Refusal, &str, u16); 6] = [
    (Refusal::NoHead, "these bytes are no request head", 400),
    (Refusal::WrongHost, "HTTP/1.1 asks for one Host line", 400),
    (
        Refusal::WrongLength,
        "the Content-Length is not one number, or stands with Transfer-Encoding",
        400,
    ),
    (
        Refusal::WrongCoding,
        "the last transfer coding is not chunked, or the version has none",
        400,
    ),
    (
        Refusal::WrongTarget,
        "the target has no form that is served",
        400,
    ),
    (
        Refusal::CodedContent,
        "the content has a coding that is not served",
        501,
    ),
];

#[test]
fn refusals_have_a_text_and_a_status(rt: HostRuntime) -> Result<(), Fail> {
    let alloc = rt.alloc();
    for (refusal, text, status) in REASONS {
        assert_eq!(rt; format!(in alloc; "{refusal}")?.as_str(), text);
        assert_eq!(rt; refusal.status(), status);
    }
    Ok(())
}
