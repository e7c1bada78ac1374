//! Each predicate under `ask`, with a request of which it holds and one of which it does not.

use crate::status::Status;
use crate::tests::{ASK, HI_ANSWER, NOT_FOUND, answered, plain};
use std::alloc::{AllocError, Global};
use std::test::Fail;

const GONE: &[u8] =
    b"HTTP/1.1 410 Gone\r\ncontent-length: 0\r\ndate: Thu, 01 Jan 1970 00:00:00 GMT\r\n\r\n";

/// Texts that answer 204 where their predicate holds, a request of which it does, and one of which it does not.
const PREDICATES: [(&[u8], &[u8], &[u8]); 14] = [
    (
        b"not false and path(/a) or false -> response-code(204)",
        b"GET /a HTTP/1.1\r\nHost: a\r\n\r\n",
        b"GET /A HTTP/1.1\r\nHost: a\r\n\r\n",
    ),
    (
        b"path('/a b', /c) -> response-code(204)",
        b"GET /x/../a%20b HTTP/1.1\r\nHost: a\r\n\r\n",
        b"GET /a HTTP/1.1\r\nHost: a\r\n\r\n",
    ),
    (
        b"path-prefix(/old) -> response-code(204)",
        b"GET /old HTTP/1.1\r\nHost: a\r\n\r\n",
        b"GET /older HTTP/1.1\r\nHost: a\r\n\r\n",
    ),
    (
        b"path-prefix(/old, /old/er) and equals({'${remaining}', '/x'}) -> response-code(204)",
        b"GET /old/er/x HTTP/1.1\r\nHost: a\r\n\r\n",
        b"GET /old HTTP/1.1\r\nHost: a\r\n\r\n",
    ),
    (
        b"path-suffix(.php, .cgi) -> response-code(204)",
        b"GET /a.cgi HTTP/1.1\r\nHost: a\r\n\r\n",
        b"GET /a.cgi/ HTTP/1.1\r\nHost: a\r\n\r\n",
    ),
    (
        b"path-template('/users/{id}') and equals({'${id}', '7'}) -> response-code(204)",
        b"GET /users/7 HTTP/1.1\r\nHost: a\r\n\r\n",
        b"GET /users/ HTTP/1.1\r\nHost: a\r\n\r\n",
    ),
    (
        b"path-template(match='{a}/{b}', value='%{q,p}') -> response-code(204)",
        b"GET /?p=/x/y HTTP/1.1\r\nHost: a\r\n\r\n",
        b"GET /?p=x%2F HTTP/1.1\r\nHost: a\r\n\r\n",
    ),
    (
        b"regex('^/(b+)(c)?') and equals({'${0}${1}${2}', '/bbbb'}) -> response-code(204)",
        b"GET /bbd HTTP/1.1\r\nHost: a\r\n\r\n",
        b"GET /bbc HTTP/1.1\r\nHost: a\r\n\r\n",
    ),
    (
        b"regex(pattern='^[0-9]+$', value='%{c,id}') -> response-code(204)",
        b"GET / HTTP/1.1\r\nHost: a\r\nCookie: a=b; id=12\r\n\r\n",
        b"GET / HTTP/1.1\r\nHost: a\r\nCookie: id=x12\r\n\r\n",
    ),
    (
        b"method(POST, GET) -> response-code(204)",
        b"GET / HTTP/1.1\r\nHost: a\r\n\r\n",
        b"HEAD / HTTP/1.1\r\nHost: a\r\n\r\n",
    ),
    (
        b"equals('%{i,Host}', '%{q,host}') -> response-code(204)",
        b"GET /?host=a HTTP/1.1\r\nHost: a\r\n\r\n",
        b"GET /?host=b HTTP/1.1\r\nHost: a\r\n\r\n",
    ),
    (
        b"contains(value='%{i,User-Agent}', search={bot, crawler}) -> response-code(204)",
        b"GET / HTTP/1.1\r\nHost: a\r\nuser-agent: a crawler's\r\n\r\n",
        b"GET / HTTP/1.1\r\nHost: a\r\nuser-agent: crawl\r\n\r\n",
    ),
    (
        b"exists('%{q,debug}') -> response-code(204)",
        b"GET /?a&debug=1 HTTP/1.1\r\nHost: a\r\n\r\n",
        b"GET /?debug= HTTP/1.1\r\nHost: a\r\n\r\n",
    ),
    (
        b"equals('%t', '[01/Jan/1970:00:00:00 +0000]') and equals('%U', '/%%7E') and path(/~) -> response-code(204)",
        b"GET /%7E HTTP/1.1\r\nHost: a\r\n\r\n",
        b"GET /~ HTTP/1.1\r\nHost: a\r\n\r\n",
    ),
];

/// Whether `ask` under the text answers the input so.
fn is_answered(alloc: Global, text: &[u8], input: &[u8], want: &[u8]) -> Result<bool, AllocError> {
    let (status, written) = answered(alloc, &plain(text, input), &ASK)?;
    Ok(status == Status::Done && written.as_slice() == want)
}

#[test]
fn each_predicate_holds_where_it_should(rt: HostRuntime) -> Result<(), Fail> {
    let alloc = rt.alloc();
    for (text, held, missed) in PREDICATES {
        assert!(rt; is_answered(alloc, text, held, HI_ANSWER)?);
        assert!(rt; is_answered(alloc, text, missed, NOT_FOUND)?);
    }
    Ok(())
}

const TWO: &[u8] = b"equals('%m', 'GET') and not path-suffix(.txt) -> response-code(204)
contains(value='%{q,a}', search=b) -> response-code(410)";

#[test]
fn predicates_one_after_the_other(rt: HostRuntime) -> Result<(), Fail> {
    let alloc = rt.alloc();
    let rows: [(&[u8], &[u8]); 2] = [
        (b"GET /x?a=abc HTTP/1.1\r\nHost: a\r\n\r\n", HI_ANSWER),
        (b"GET /x.txt?a=abc HTTP/1.1\r\nHost: a\r\n\r\n", GONE),
    ];
    for (input, want) in rows {
        assert!(rt; is_answered(alloc, TWO, input, want)?);
    }
    Ok(())
}
