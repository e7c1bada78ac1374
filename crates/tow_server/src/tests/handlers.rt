//! Each handler that is built under `ask`, with requests and their answers.

use crate::status::Status;
use crate::tests::{ASK, answered, plain};
use std::test::Fail;

/// Texts, requests under them, and the answers.
const HANDLERS: [(&[u8], &[u8], &[u8]); 19] = [
    (
        b"header(header=x-a, value=1)\nheader(header=x-a, value=2, override=false)\nredirect('/a b')",
        b"GET / HTTP/1.1\r\nHost: a\r\n\r\n",
        b"HTTP/1.1 302 Found\r\ncontent-length: 0\r\ndate: Thu, 01 Jan 1970 00:00:00 GMT\r\nlocation: /a%20b\r\nx-a: 1\r\nx-a: 2\r\n\r\n",
    ),
    (
        b"path-prefix('/foo') -> set(attribute='%{o,x-r}', value='${remaining}')",
        b"GET /foobar HTTP/1.1\r\nHost: a\r\n\r\n",
        b"HTTP/1.1 404 Not Found\r\ncontent-length: 0\r\ndate: Thu, 01 Jan 1970 00:00:00 GMT\r\n\r\n",
    ),
    (
        b"path-prefix('/foo') -> set(attribute='%{o,x-r}', value='${remaining}')",
        b"GET /foo HTTP/1.1\r\nHost: a\r\n\r\n",
        b"HTTP/1.1 404 Not Found\r\ncontent-length: 0\r\ndate: Thu, 01 Jan 1970 00:00:00 GMT\r\nx-r: \r\n\r\n",
    ),
    (
        b"path-prefix('/foo') -> set(attribute='%{o,x-r}', value='${remaining}')",
        b"GET /foo/bar HTTP/1.1\r\nHost: a\r\n\r\n",
        b"HTTP/1.1 404 Not Found\r\ncontent-length: 0\r\ndate: Thu, 01 Jan 1970 00:00:00 GMT\r\nx-r: /bar\r\n\r\n",
    ),
    (
        b"path-template('/u/{id}') -> header(header=x-id, value='${id}')\nresponse-code(200)",
        b"GET /u/7 HTTP/1.1\r\nHost: a\r\n\r\n",
        b"HTTP/1.1 200 OK\r\ncontent-length: 0\r\ndate: Thu, 01 Jan 1970 00:00:00 GMT\r\nx-id: 7\r\n\r\n",
    ),
    (
        b"path-template('/u/{id}') -> header(header=x-id, value='${id}')\nresponse-code(200)",
        b"GET /u/ HTTP/1.1\r\nHost: a\r\n\r\n",
        b"HTTP/1.1 200 OK\r\ncontent-length: 0\r\ndate: Thu, 01 Jan 1970 00:00:00 GMT\r\n\r\n",
    ),
    (
        b"redirect('https://example.org%R%q')",
        b"HEAD /a?b HTTP/1.1\r\nHost: a\r\n\r\n",
        b"HTTP/1.1 302 Found\r\ncontent-length: 0\r\ndate: Thu, 01 Jan 1970 00:00:00 GMT\r\nlocation: https://example.org/a?b\r\n\r\n",
    ),
    (
        b"clear(%q); redirect('%R%q')",
        b"GET /a?b HTTP/1.1\r\nHost: a\r\n\r\n",
        b"HTTP/1.1 302 Found\r\ncontent-length: 0\r\ndate: Thu, 01 Jan 1970 00:00:00 GMT\r\nlocation: /a\r\n\r\n",
    ),
    (
        b"rewrite('b/../c?%U'); redirect('%R%q')",
        b"GET /a HTTP/1.1\r\nHost: a\r\n\r\n",
        b"HTTP/1.1 302 Found\r\ncontent-length: 0\r\ndate: Thu, 01 Jan 1970 00:00:00 GMT\r\nlocation: /c?/a\r\n\r\n",
    ),
    (
        b"regex('^/(.*)[.]htm$') -> { rewrite('/${1}.html'); restart }; redirect('%R')",
        b"GET /b.htm HTTP/1.1\r\nHost: a\r\n\r\n",
        b"HTTP/1.1 302 Found\r\ncontent-length: 0\r\ndate: Thu, 01 Jan 1970 00:00:00 GMT\r\nlocation: /b.html\r\n\r\n",
    ),
    (
        b"header(header=x-a, value=1); header(header=X-A, value=2)",
        b"GET / HTTP/1.1\r\nHost: a\r\n\r\n",
        b"HTTP/1.1 404 Not Found\r\ncontent-length: 0\r\ndate: Thu, 01 Jan 1970 00:00:00 GMT\r\nx-a: 2\r\n\r\n",
    ),
    (
        b"header(header=x-a, value='%{q,a}')",
        b"GET /?a=%0A HTTP/1.1\r\nHost: a\r\n\r\n",
        b"HTTP/1.1 404 Not Found\r\ncontent-length: 0\r\ndate: Thu, 01 Jan 1970 00:00:00 GMT\r\n\r\n",
    ),
    (
        b"set(attribute='%s', value=205); header(header=x-s, value='%s')",
        b"GET / HTTP/1.1\r\nHost: a\r\n\r\n",
        b"HTTP/1.1 404 Not Found\r\ncontent-length: 0\r\ndate: Thu, 01 Jan 1970 00:00:00 GMT\r\nx-s: 200\r\n\r\n",
    ),
    (
        b"set(attribute='%s', value=410); header(header=x-s, value='%s')",
        b"GET / HTTP/1.1\r\nHost: a\r\n\r\n",
        b"HTTP/1.1 404 Not Found\r\ncontent-length: 0\r\ndate: Thu, 01 Jan 1970 00:00:00 GMT\r\nx-s: 410\r\n\r\n",
    ),
    (
        b"set(attribute='${a}', value='%m'); header(header=x-m, value='${a}'); clear('${a}'); exists('${a}') -> done else response-code(204)",
        b"GET / HTTP/1.1\r\nHost: a\r\n\r\n",
        b"HTTP/1.1 204 No Content\r\ndate: Thu, 01 Jan 1970 00:00:00 GMT\r\nx-m: GET\r\n\r\n",
    ),
    (
        b"allowed-methods(PUT, POST); response-code(204)",
        b"GET / HTTP/1.1\r\nHost: a\r\n\r\n",
        b"HTTP/1.1 405 Method Not Allowed\r\nallow: PUT, POST\r\ncontent-length: 0\r\ndate: Thu, 01 Jan 1970 00:00:00 GMT\r\n\r\n",
    ),
    (
        b"allowed-methods(GET); response-code(204)",
        b"GET / HTTP/1.1\r\nHost: a\r\n\r\n",
        b"HTTP/1.1 204 No Content\r\ndate: Thu, 01 Jan 1970 00:00:00 GMT\r\n\r\n",
    ),
    (
        b"header(header=allow, value=PUT); done",
        b"POST / HTTP/1.1\r\nHost: a\r\n\r\n",
        b"HTTP/1.1 405 Method Not Allowed\r\nallow: GET, HEAD\r\ncontent-length: 0\r\ndate: Thu, 01 Jan 1970 00:00:00 GMT\r\n\r\n",
    ),
    (
        b"blocking; response-code(204)",
        b"GET / HTTP/1.1\r\nHost: a\r\n\r\n",
        b"HTTP/1.1 204 No Content\r\ndate: Thu, 01 Jan 1970 00:00:00 GMT\r\n\r\n",
    ),
];

#[test]
fn each_handler_does_what_it_should(rt: HostRuntime) -> Result<(), Fail> {
    let alloc = rt.alloc();
    for (i, (text, input, want)) in HANDLERS.iter().enumerate() {
        let (status, written) = answered(alloc, &plain(text, input), &ASK)?;
        assert_eq!(rt; status, Status::Done, "row {i}");
        assert!(rt; written.as_slice() == *want, "row {i}");
    }
    Ok(())
}
