//! The commands over texts of each kind, with the bytes that are printed written out.

use crate::status::Status;
use crate::tests::{ASK, CHECK, Case, GET_HI, HI, HI_ANSWER, NOT_FOUND, answered, plain};
use std::alloc::{AllocError, Global};
use std::test::Fail;

fn line_ends(alloc: Global, count: usize) -> Result<Vec<u8>, AllocError> {
    let mut bytes = Vec::new(alloc);
    for _byte in 0..count {
        bytes.push(b'\n')?;
    }
    Ok(bytes)
}

/// Texts with a fault, and the line that names it.
const FAULTS: [(&[u8], &[u8]); 22] = [
    (b"path('/a -> done", b"1:6: UnclosedQuote\n"),
    (b"nosuch(1)", b"1:1: UnknownName\n"),
    (
        b"set(attribute='%{o,content-length}', value=1)",
        b"1:15: BadTarget\n",
    ),
    (b"path(/a) ->", b"1:12: Unexpected\n"),
    (b"path(/a) -> done; true", b"1:19: UnknownName\n"),
    (b"else done", b"1:1: Unexpected\n"),
    (b"done\n\nrestart()", b"3:8: Unexpected\n"),
    (b"done\n  \xFF", b"2:3: StrayByte\n"),
    (b"rewrite('%')", b"1:9: BadAttribute\n"),
    (b"response-code(205)", b"1:15: BadParameter\n"),
    (b"exists(%{i,Host) -> done", b"1:8: UnclosedBrace\n"),
    (b"done\x01", b"1:5: StrayByte\n"),
    (b"((((((((((((((((((((((((((((((((((", b"1:33: TooDeep\n"),
    (b"path(paths=/a) -> done", b"1:6: BadParameter\n"),
    (b"response-code(199)", b"1:15: BadParameter\n"),
    (b"response-code(200, 201)", b"1:20: BadParameter\n"),
    (b"path(/a, {/b}) -> done", b"1:6: BadParameter\n"),
    (b"true(1) -> done", b"1:6: BadParameter\n"),
    (b"path -> done", b"1:1: BadParameter\n"),
    (b"exists('%z') -> done", b"1:8: BadAttribute\n"),
    (b"regex('(') -> done", b"1:7: BadPattern\n"),
    (b"regex('(') -> echo", b"1:7: BadPattern\n"),
];

/// Whether both commands refuse the text with this line.
fn is_refused(alloc: Global, text: &[u8], want: &[u8]) -> Result<bool, AllocError> {
    let case = plain(text, GET_HI);
    for words in [&ASK[..], &CHECK[..]] {
        let (status, written) = answered(alloc, &case, words)?;
        if status != Status::Text || written.as_slice() != want {
            return Ok(false);
        }
    }
    Ok(true)
}

#[test]
fn texts_that_do_not_compile_are_refused(rt: HostRuntime) -> Result<(), Fail> {
    let alloc = rt.alloc();
    let long = line_ends(alloc, 65_537)?;
    let deep = deep_text(alloc, 33)?;
    let mut limits = Vec::new(alloc);
    for _limit in 0..17 {
        limits.extend_from_slice(b"request-limit(1)\n")?;
    }
    let built: [(&[u8], &[u8]); 3] = [
        (limits.as_slice(), b"17:1: TooManyLimits\n"),
        (deep.as_slice(), b"1:129: TooDeep\n"),
        (long.as_slice(), b"65537:1: TooLong\n"),
    ];
    for (text, want) in FAULTS {
        assert!(rt; is_refused(alloc, text, want)?);
    }
    for (text, want) in built {
        assert!(rt; is_refused(alloc, text, want)?);
    }
    let full = line_ends(alloc, 65_536)?;
    let (status, written) = answered(alloc, &plain(full.as_slice(), GET_HI), &ASK)?;
    assert_eq!(rt; status, Status::Done);
    assert_eq!(rt; written.as_slice(), NOT_FOUND);
    Ok(())
}

/// So many times `not `, and then a statement.
fn deep_text(alloc: Global, levels: usize) -> Result<Vec<u8>, AllocError> {
    let mut text = Vec::new(alloc);
    for _level in 0..levels {
        text.extend_from_slice(b"not ")?;
    }
    text.extend_from_slice(b"true -> done")?;
    Ok(text)
}

/// One call of each predicate but `regex`.
const PREDICATES: &[u8] = b"true -> done
false -> response-code(500)
path(/, /index.html) -> response-code(204)
path-prefix(/old) -> redirect('/new${remaining}')
path-suffix(.php, .cgi) -> response-code(404)
path-template('/users/{id}') -> set(attribute=%{o,x-user}, value=${id})
method(GET, HEAD) -> done
equals('%{i,Host}', 'example.org') -> done
contains(value='%{i,User-Agent}', search={bot, crawler}) -> response-code(403)
exists('%{q,debug}') -> response-code(404)
";

/// One call of each handler.
const HANDLERS: &[u8] = b"set(attribute=%{o,x-path}, value='%U')
clear(%q)
rewrite('/app%R')
redirect('https://example.org%R%q')
response-code(410)
header(header=cache-control, value=no-store, override=false)
allowed-methods(GET, HEAD)
request-limit(100)
resource(location=/site, allow-listing=true)
blocking
access-log('%h \"%r\" %s')
echo
";

#[test]
fn texts_are_checked(rt: HostRuntime) -> Result<(), Fail> {
    let alloc = rt.alloc();
    let deep = deep_text(alloc, 32)?;
    let rows: [(&[u8], &[u8]); 9] = [
        (PREDICATES, b"ok 10\n"),
        (HANDLERS, b"ok 12\n"),
        (b"", b"ok 0\n"),
        (HI, b"ok 1\n"),
        (b"regex(a) -> done", b"ok 1\n"),
        (b"not(true or false)->{}else done", b"ok 1\n"),
        (deep.as_slice(), b"ok 1\n"),
        (
            b"access-log(combined)\nrequest-limit(100)\nallowed-methods(GET, HEAD)\npath('/old') -> redirect('/new.html')\nresource('/')",
            b"ok 5\n",
        ),
        (
            b"path-prefix('/a') -> { set(attribute='%s', value=404) } done",
            b"ok 2\n",
        ),
    ];
    for (text, want) in rows {
        let (status, written) = answered(alloc, &plain(text, GET_HI), &CHECK)?;
        assert_eq!(rt; status, Status::Done);
        assert_eq!(rt; written.as_slice(), want);
    }
    Ok(())
}

#[test]
fn what_is_not_built_is_refused(rt: HostRuntime) -> Result<(), Fail> {
    let alloc = rt.alloc();
    let rows: [&[u8]; 4] = [
        b"regex(a) -> echo",
        b"response-code(204); access-log()",
        b"false -> { request-limit(1) }",
        b"true -> done else resource('/')",
    ];
    for text in rows {
        let (status, written) = answered(alloc, &plain(text, GET_HI), &ASK)?;
        assert_eq!(rt; status, Status::Text);
        assert_eq!(rt; written.as_slice(), b"1:1: Unbuilt\n".as_slice());
    }
    Ok(())
}

/// How a command ends that is given this text over a host that refuses these patterns as too large, and what it prints.
fn made<'a>(
    alloc: Global,
    text: &'a [u8],
    larges: &'a [&'a [u8]],
    words: &[&str],
) -> Result<(Status, Vec<u8>), AllocError> {
    let case = Case {
        large_patterns: larges,
        ..plain(text, GET_HI)
    };
    answered(alloc, &case, words)
}

#[test]
fn large_patterns_are_refused(rt: HostRuntime) -> Result<(), Fail> {
    let alloc = rt.alloc();
    let text = b"regex(a) -> done".as_slice();
    for words in [&ASK[..], &CHECK[..]] {
        let (status, written) = made(alloc, text, &[b"a"], words)?;
        assert_eq!(rt; status, Status::Text);
        assert_eq!(rt; written.as_slice(), b"1:7: LargePattern\n".as_slice());
    }
    let (status, written) = made(alloc, text, &[b"b"], &CHECK)?;
    assert_eq!(rt; status, Status::Done);
    assert_eq!(rt; written.as_slice(), b"ok 1\n".as_slice());
    Ok(())
}

const GONE: &[u8] =
    b"HTTP/1.1 410 Gone\r\ncontent-length: 0\r\ndate: Thu, 01 Jan 1970 00:00:00 GMT\r\n\r\n";

const ERROR: &[u8] =
    b"HTTP/1.1 500 Internal Server Error\r\ncontent-length: 0\r\ndate: Thu, 01 Jan 1970 00:00:00 GMT\r\n\r\n";

/// Texts, and how they answer a GET of `/hi`.
const TREES: [(&[u8], &[u8]); 10] = [
    (b"restart", ERROR),
    (b"path(\"/hi\") -> response-code(204)", HI_ANSWER),
    (b"path(hi) -> response-code(204)", HI_ANSWER),
    (b"path(/no, /hi) -> response-code(204)", HI_ANSWER),
    (b"{ done } response-code(410)", NOT_FOUND),
    (
        b"path(/no) -> response-code(204) else response-code(410)",
        GONE,
    ),
    (
        b"path(/hi) -> response-code(204) else response-code(410)",
        HI_ANSWER,
    ),
    (b"not path(/no) and true -> response-code(410)", GONE),
    (b"false or path(/hi) -> { response-code(204) }", HI_ANSWER),
    (
        b"false -> done else true -> { false -> done; response-code(410) }",
        GONE,
    ),
];

#[test]
fn trees_are_walked(rt: HostRuntime) -> Result<(), Fail> {
    let alloc = rt.alloc();
    for (text, want) in TREES {
        let (status, written) = answered(alloc, &plain(text, GET_HI), &ASK)?;
        assert_eq!(rt; status, Status::Done);
        assert_eq!(rt; written.as_slice(), want);
    }
    Ok(())
}
