//! First bytes of inputs, and what the inputs go on with.

ghost use Rattle.std.specs.Prelude.{◌≤◌, length};
ghost use Rattle.tow_model.specs.declared.limits.TheConstants.{MAX_HEAD_LEN};

use crate::{NextRequest, next_request};
use std::alloc::{AllocError, Global};
use std::test::Fail;
use tow_model::limits::{LOCAL_PEER, MAX_HEAD_LEN};

/// What an input goes on with, without the request.
#[derive(Clone, Copy, Debug, PartialEq, Eq)]
enum Told {
    Request(usize),
    More,
    Nothing,
    Refuse(u16),
    NoMemory,
}

fn answer_to(alloc: Global, bytes: &[u8], ended: bool) -> Told
    requires { length bytes.now ≤ MAX_HEAD_LEN }
{
    match next_request(alloc, bytes, ended, LOCAL_PEER) {
        NextRequest::Request(_, used) => Told::Request(used),
        NextRequest::More => Told::More,
        NextRequest::Nothing => Told::Nothing,
        NextRequest::Refuse(status) => Told::Refuse(status),
        NextRequest::NoMemory => Told::NoMemory,
    }
}

/// Whether the bytes go on as they should while more may come, and where they have ended.
fn goes_on(alloc: Global, bytes: &[u8], open: Told, ended: Told) -> bool {
    bytes.len() <= MAX_HEAD_LEN
        && answer_to(alloc, bytes, false) == open
        && answer_to(alloc, bytes, true) == ended
}

/// First bytes, what they go on with while more may come, and what where they have ended.
const GO_ON: [(&str, Told, Told); 8] = [
    ("", Told::More, Told::Nothing),
    ("\r\n\n", Told::More, Told::Nothing),
    ("GET / HT", Told::More, Told::Refuse(400)),
    (
        "GET / HTTP/1.1\r\nHost: a\r\n\r",
        Told::More,
        Told::Refuse(400),
    ),
    (
        "GET /a?b HTTP/1.1\r\nHost: a\r\n\r\n",
        Told::Request(30),
        Told::Request(30),
    ),
    (
        "\r\nGET / HTTP/1.1\r\nHost: a\r\n\r\n",
        Told::Request(29),
        Told::Request(29),
    ),
    (
        "GET / HTTP/1.1\r\nHost: a\r\n\r\nGE",
        Told::Request(27),
        Told::Request(27),
    ),
    (
        "GET / HTTP/1.1\r\nHost: a\r\n\r\nGET / HTTP/1.0\r\n\r\n",
        Told::Request(27),
        Told::Request(27),
    ),
];

#[test]
fn inputs_go_on(rt: HostRuntime) {
    let alloc = rt.alloc();
    for (i, (bytes, open, ended)) in GO_ON.iter().enumerate() {
        assert!(rt; goes_on(alloc, bytes.as_bytes(), *open, *ended), "row {i}");
    }
}

/// First bytes that are refused whatever follows, with the statuses.
const REFUSED: [(&str, u16); 14] = [
    ("GET / HTTP/2", 400),
    ("\r\rG", 400),
    ("GET / HTTP/1.1\r\n\r\n", 400),
    ("GET a HTTP/1.1\r\nHost: a\r\n\r\n", 400),
    ("GET a HTTP/1.0\r\n\r\n", 400),
    (
        "GET / HTTP/1.1\r\nHost: a\r\nContent-Length: 3\r\nTransfer-Encoding: chunked\r\n\r\nabc",
        400,
    ),
    (
        "GET / HTTP/1.1\r\nHost: a\r\nTransfer-Encoding: gzip, chunked\r\n\r\n",
        501,
    ),
    (
        "GET / HTTP/1.0\r\n\r\nGET / HTTP/1.1\r\nHost: a\r\n\r\n",
        501,
    ),
    (
        "GET / HTTP/1.1\r\nHost: a\r\nContent-Length: 0\r\n\r\n",
        501,
    ),
    (
        "GET / HTTP/1.1\r\nHost: a\r\ncontent-length: 3\r\n\r\nabc",
        501,
    ),
    (
        "GET / HTTP/1.1\r\nHost: a\r\nTransfer-Encoding: chunked\r\n\r\n",
        501,
    ),
    ("GET / HTTP/1.1\r\nHost: a\r\nCONNECTION: a\r\n\r\n", 501),
    ("GET / HTTP/1.1\r\nexpect: a\r\nHost: a\r\n\r\n", 501),
    (
        "GET / HTTP/1.1\r\nHost: a\r\nExpect: 100-continue\r\nContent-Length: 1\r\n\r\n",
        501,
    ),
];

#[test]
fn heads_are_refused(rt: HostRuntime) {
    let alloc = rt.alloc();
    for (i, (bytes, status)) in REFUSED.iter().enumerate() {
        let want = Told::Refuse(*status);
        assert!(rt; goes_on(alloc, bytes.as_bytes(), want, want), "row {i}");
    }
}

/// The front of a head, and a field value that fills it up to so many bytes, with the back behind it.
fn filled(alloc: Global, len: usize, back: &[u8]) -> Result<Vec<u8>, AllocError> {
    let mut bytes = Vec::from_slice(alloc, b"GET / HTTP/1.1\r\nHost: a\r\nA: ")?;
    for _ in bytes.len()..len.saturating_sub(back.len()) {
        bytes.push(b'x')?;
    }
    bytes.extend_from_slice(back)?;
    Ok(bytes)
}

#[test]
fn the_longest_head_is_a_request(rt: HostRuntime) -> Result<(), Fail> {
    let alloc = rt.alloc();
    let whole = filled(alloc, 65_536, b"\r\n\r\n")?;
    assert!(rt; goes_on(alloc, &whole, Told::Request(65_536), Told::Request(65_536)));
    let unfinished = filled(alloc, 65_536, b"\r\n\r")?;
    assert!(rt; goes_on(alloc, &unfinished, Told::Refuse(400), Told::Refuse(400)));
    let shorter = filled(alloc, 65_535, b"\r\n\r")?;
    assert!(rt; goes_on(alloc, &shorter, Told::More, Told::Refuse(400)));
    Ok(())
}

#[test]
fn a_request_is_that_of_its_head(rt: HostRuntime) -> Result<(), Fail> {
    let text = b"PUT /a%20b?c HTTP/1.1\r\nHost: a\r\nX: 1\r\n\r\nGET";
    let NextRequest::Request(request, used) = next_request(rt.alloc(), text, false, 7) else {
        return Err("there is a request".into());
    };
    assert_eq!(rt; used, text.len() - 3);
    assert_eq!(rt; request.method.as_slice(), b"PUT".as_slice());
    assert_eq!(rt; request.path.as_slice(), b"/a b".as_slice());
    assert_eq!(rt; request.fields.len(), 2);
    assert_eq!(rt; request.peer, 7);
    Ok(())
}
