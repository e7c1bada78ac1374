//! Rows of requests with what became of their content, and their answers.

use super::{Asked, request, state};
use crate::{ContentUse, answer_to};
use std::alloc::{AllocError, Global};
use std::process::Abort;
use std::test::Fail;
use tow_model::{Bytes, Choice, Framing, List, Version};
use tow_render::head;

/// The content of an answer, by its length alone where it is not here.
#[derive(Clone, Copy)]
enum Sent {
    Undecided,
    Nothing,
    Whole(&'static [u8]),
    File(u64),
    Listing,
}

impl Sent {
    fn choice(self, alloc: Global) -> Result<Choice, AllocError> {
        Ok(match self {
            Sent::Undecided => Choice::Undecided,
            Sent::Nothing => Choice::Empty,
            Sent::Whole(bytes) => Choice::Whole(Bytes::from_slice(alloc, bytes)?),
            Sent::File(len) => Choice::File {
                path: Bytes::from_slice(alloc, b"/hi")?,
                len,
            },
            Sent::Listing => Choice::Listing(Bytes::from_slice(alloc, b"<!DOCTYPE html>")?),
        })
    }
}

/// A request, what became of its content, the status and the content of its answer, the answer's head, and whether it closes.
struct Row {
    asked: Asked,
    content_use: ContentUse,
    status: u16,
    sent: Sent,
    head: &'static [u8],
    closes: bool,
}

const ROWS: &[Row] = &[
    // requests without content
    Row {
        asked: Asked {
            method: b"GET",
            version: Version::V11,
            framing: Framing::Empty,
            expects: false,
            keep: true,
            number: 1,
        },
        content_use: ContentUse::Unasked,
        status: 204,
        sent: Sent::Nothing,
        head: b"HTTP/1.1 204 No Content\r\ndate: Thu, 01 Jan 1970 00:00:00 GMT\r\n\r\n",
        closes: false,
    },
    Row {
        asked: Asked {
            method: b"GET",
            version: Version::V11,
            framing: Framing::Empty,
            expects: false,
            keep: true,
            number: 999,
        },
        content_use: ContentUse::Unasked,
        status: 404,
        sent: Sent::Nothing,
        head: b"HTTP/1.1 404 Not Found\r\ncontent-length: 0\r\ndate: Thu, 01 Jan 1970 00:00:00 GMT\r\n\r\n",
        closes: false,
    },
    Row {
        asked: Asked {
            method: b"GET",
            version: Version::V11,
            framing: Framing::Empty,
            expects: false,
            keep: true,
            number: 1000,
        },
        content_use: ContentUse::Unasked,
        status: 204,
        sent: Sent::Nothing,
        head: b"HTTP/1.1 204 No Content\r\nconnection: close\r\ndate: Thu, 01 Jan 1970 00:00:00 GMT\r\n\r\n",
        closes: true,
    },
    Row {
        asked: Asked {
            method: b"GET",
            version: Version::V11,
            framing: Framing::Empty,
            expects: false,
            keep: false,
            number: 1,
        },
        content_use: ContentUse::Unasked,
        status: 404,
        sent: Sent::Nothing,
        head: b"HTTP/1.1 404 Not Found\r\nconnection: close\r\ncontent-length: 0\r\ndate: Thu, 01 Jan 1970 00:00:00 GMT\r\n\r\n",
        closes: true,
    },
    Row {
        asked: Asked {
            method: b"GET",
            version: Version::V11,
            framing: Framing::Empty,
            expects: false,
            keep: true,
            number: 1,
        },
        content_use: ContentUse::Unasked,
        status: 404,
        sent: Sent::Undecided,
        head: b"HTTP/1.1 404 Not Found\r\ncontent-length: 0\r\ndate: Thu, 01 Jan 1970 00:00:00 GMT\r\n\r\n",
        closes: false,
    },
    // requests of the old version
    Row {
        asked: Asked {
            method: b"GET",
            version: Version::V10,
            framing: Framing::Empty,
            expects: false,
            keep: true,
            number: 1,
        },
        content_use: ContentUse::Unasked,
        status: 204,
        sent: Sent::Nothing,
        head: b"HTTP/1.1 204 No Content\r\nconnection: keep-alive\r\ndate: Thu, 01 Jan 1970 00:00:00 GMT\r\n\r\n",
        closes: false,
    },
    Row {
        asked: Asked {
            method: b"GET",
            version: Version::V10,
            framing: Framing::Empty,
            expects: false,
            keep: true,
            number: 1,
        },
        content_use: ContentUse::Unasked,
        status: 200,
        sent: Sent::Whole(b"abc"),
        head: b"HTTP/1.1 200 OK\r\nconnection: keep-alive\r\ncontent-length: 3\r\ndate: Thu, 01 Jan 1970 00:00:00 GMT\r\n\r\n",
        closes: false,
    },
    Row {
        asked: Asked {
            method: b"GET",
            version: Version::V10,
            framing: Framing::Empty,
            expects: false,
            keep: false,
            number: 1,
        },
        content_use: ContentUse::Unasked,
        status: 204,
        sent: Sent::Nothing,
        head: b"HTTP/1.1 204 No Content\r\nconnection: close\r\ndate: Thu, 01 Jan 1970 00:00:00 GMT\r\n\r\n",
        closes: true,
    },
    Row {
        asked: Asked {
            method: b"GET",
            version: Version::V10,
            framing: Framing::Empty,
            expects: false,
            keep: true,
            number: 1,
        },
        content_use: ContentUse::Unasked,
        status: 200,
        sent: Sent::Listing,
        head: b"HTTP/1.1 200 OK\r\nconnection: close\r\ndate: Thu, 01 Jan 1970 00:00:00 GMT\r\n\r\n",
        closes: true,
    },
    Row {
        asked: Asked {
            method: b"HEAD",
            version: Version::V10,
            framing: Framing::Empty,
            expects: false,
            keep: true,
            number: 1,
        },
        content_use: ContentUse::Unasked,
        status: 200,
        sent: Sent::Listing,
        head: b"HTTP/1.1 200 OK\r\nconnection: close\r\ndate: Thu, 01 Jan 1970 00:00:00 GMT\r\n\r\n",
        closes: true,
    },
    Row {
        asked: Asked {
            method: b"GET",
            version: Version::V10,
            framing: Framing::Fixed(3),
            expects: false,
            keep: true,
            number: 1,
        },
        content_use: ContentUse::Served,
        status: 200,
        sent: Sent::Whole(b"abc"),
        head: b"HTTP/1.1 200 OK\r\nconnection: keep-alive\r\ncontent-length: 3\r\ndate: Thu, 01 Jan 1970 00:00:00 GMT\r\n\r\n",
        closes: false,
    },
    // lengths
    Row {
        asked: Asked {
            method: b"GET",
            version: Version::V11,
            framing: Framing::Empty,
            expects: false,
            keep: true,
            number: 1,
        },
        content_use: ContentUse::Unasked,
        status: 200,
        sent: Sent::Listing,
        head: b"HTTP/1.1 200 OK\r\ndate: Thu, 01 Jan 1970 00:00:00 GMT\r\ntransfer-encoding: chunked\r\n\r\n",
        closes: false,
    },
    Row {
        asked: Asked {
            method: b"GET",
            version: Version::V11,
            framing: Framing::Empty,
            expects: false,
            keep: true,
            number: 1,
        },
        content_use: ContentUse::Unasked,
        status: 200,
        sent: Sent::File(1_000),
        head: b"HTTP/1.1 200 OK\r\ncontent-length: 1000\r\ndate: Thu, 01 Jan 1970 00:00:00 GMT\r\n\r\n",
        closes: false,
    },
    Row {
        asked: Asked {
            method: b"HEAD",
            version: Version::V11,
            framing: Framing::Empty,
            expects: false,
            keep: true,
            number: 1,
        },
        content_use: ContentUse::Unasked,
        status: 200,
        sent: Sent::File(1_000),
        head: b"HTTP/1.1 200 OK\r\ncontent-length: 1000\r\ndate: Thu, 01 Jan 1970 00:00:00 GMT\r\n\r\n",
        closes: false,
    },
    Row {
        asked: Asked {
            method: b"HEAD",
            version: Version::V11,
            framing: Framing::Empty,
            expects: false,
            keep: true,
            number: 1,
        },
        content_use: ContentUse::Unasked,
        status: 200,
        sent: Sent::Whole(b"abc"),
        head: b"HTTP/1.1 200 OK\r\ncontent-length: 3\r\ndate: Thu, 01 Jan 1970 00:00:00 GMT\r\n\r\n",
        closes: false,
    },
    Row {
        asked: Asked {
            method: b"HEAD",
            version: Version::V11,
            framing: Framing::Empty,
            expects: false,
            keep: true,
            number: 1,
        },
        content_use: ContentUse::Unasked,
        status: 200,
        sent: Sent::Listing,
        head: b"HTTP/1.1 200 OK\r\ndate: Thu, 01 Jan 1970 00:00:00 GMT\r\ntransfer-encoding: chunked\r\n\r\n",
        closes: false,
    },
    Row {
        asked: Asked {
            method: b"GET",
            version: Version::V11,
            framing: Framing::Empty,
            expects: false,
            keep: true,
            number: 1,
        },
        content_use: ContentUse::Unasked,
        status: 204,
        sent: Sent::Whole(b"abc"),
        head: b"HTTP/1.1 204 No Content\r\ndate: Thu, 01 Jan 1970 00:00:00 GMT\r\n\r\n",
        closes: false,
    },
    Row {
        asked: Asked {
            method: b"GET",
            version: Version::V11,
            framing: Framing::Empty,
            expects: false,
            keep: true,
            number: 1,
        },
        content_use: ContentUse::Unasked,
        status: 304,
        sent: Sent::File(1_000),
        head: b"HTTP/1.1 304 Not Modified\r\ndate: Thu, 01 Jan 1970 00:00:00 GMT\r\n\r\n",
        closes: false,
    },
    Row {
        asked: Asked {
            method: b"GET",
            version: Version::V11,
            framing: Framing::Empty,
            expects: false,
            keep: true,
            number: 1,
        },
        content_use: ContentUse::Unasked,
        status: 304,
        sent: Sent::Listing,
        head: b"HTTP/1.1 304 Not Modified\r\ndate: Thu, 01 Jan 1970 00:00:00 GMT\r\n\r\n",
        closes: false,
    },
    // requests with content
    Row {
        asked: Asked {
            method: b"POST",
            version: Version::V11,
            framing: Framing::Fixed(3),
            expects: false,
            keep: true,
            number: 1,
        },
        content_use: ContentUse::Unasked,
        status: 404,
        sent: Sent::Nothing,
        head: b"HTTP/1.1 404 Not Found\r\ncontent-length: 0\r\ndate: Thu, 01 Jan 1970 00:00:00 GMT\r\n\r\n",
        closes: false,
    },
    Row {
        asked: Asked {
            method: b"POST",
            version: Version::V11,
            framing: Framing::Fixed(3),
            expects: false,
            keep: true,
            number: 1,
        },
        content_use: ContentUse::Served,
        status: 200,
        sent: Sent::Whole(b"abc"),
        head: b"HTTP/1.1 200 OK\r\ncontent-length: 3\r\ndate: Thu, 01 Jan 1970 00:00:00 GMT\r\n\r\n",
        closes: false,
    },
    Row {
        asked: Asked {
            method: b"POST",
            version: Version::V11,
            framing: Framing::Chunked,
            expects: false,
            keep: true,
            number: 1,
        },
        content_use: ContentUse::Served,
        status: 503,
        sent: Sent::Nothing,
        head: b"HTTP/1.1 503 Service Unavailable\r\ncontent-length: 0\r\ndate: Thu, 01 Jan 1970 00:00:00 GMT\r\n\r\n",
        closes: false,
    },
    Row {
        asked: Asked {
            method: b"POST",
            version: Version::V11,
            framing: Framing::Chunked,
            expects: false,
            keep: true,
            number: 1,
        },
        content_use: ContentUse::Refused,
        status: 400,
        sent: Sent::Nothing,
        head: b"HTTP/1.1 400 Bad Request\r\nconnection: close\r\ncontent-length: 0\r\ndate: Thu, 01 Jan 1970 00:00:00 GMT\r\n\r\n",
        closes: true,
    },
    Row {
        asked: Asked {
            method: b"POST",
            version: Version::V11,
            framing: Framing::Chunked,
            expects: false,
            keep: true,
            number: 1,
        },
        content_use: ContentUse::Refused,
        status: 413,
        sent: Sent::Nothing,
        head: b"HTTP/1.1 413 Content Too Large\r\nconnection: close\r\ncontent-length: 0\r\ndate: Thu, 01 Jan 1970 00:00:00 GMT\r\n\r\n",
        closes: true,
    },
    Row {
        asked: Asked {
            method: b"POST",
            version: Version::V11,
            framing: Framing::Fixed(1_048_576),
            expects: false,
            keep: true,
            number: 1,
        },
        content_use: ContentUse::Unasked,
        status: 404,
        sent: Sent::Nothing,
        head: b"HTTP/1.1 404 Not Found\r\ncontent-length: 0\r\ndate: Thu, 01 Jan 1970 00:00:00 GMT\r\n\r\n",
        closes: false,
    },
    Row {
        asked: Asked {
            method: b"POST",
            version: Version::V11,
            framing: Framing::Fixed(1_048_577),
            expects: false,
            keep: true,
            number: 1,
        },
        content_use: ContentUse::Unasked,
        status: 404,
        sent: Sent::Nothing,
        head: b"HTTP/1.1 404 Not Found\r\nconnection: close\r\ncontent-length: 0\r\ndate: Thu, 01 Jan 1970 00:00:00 GMT\r\n\r\n",
        closes: true,
    },
    Row {
        asked: Asked {
            method: b"POST",
            version: Version::V11,
            framing: Framing::Fixed(1_048_577),
            expects: false,
            keep: true,
            number: 1,
        },
        content_use: ContentUse::Refused,
        status: 413,
        sent: Sent::Nothing,
        head: b"HTTP/1.1 413 Content Too Large\r\nconnection: close\r\ncontent-length: 0\r\ndate: Thu, 01 Jan 1970 00:00:00 GMT\r\n\r\n",
        closes: true,
    },
    // clients that wait for leave to send content
    Row {
        asked: Asked {
            method: b"POST",
            version: Version::V11,
            framing: Framing::Fixed(3),
            expects: true,
            keep: true,
            number: 1,
        },
        content_use: ContentUse::Unasked,
        status: 404,
        sent: Sent::Nothing,
        head: b"HTTP/1.1 404 Not Found\r\nconnection: close\r\ncontent-length: 0\r\ndate: Thu, 01 Jan 1970 00:00:00 GMT\r\n\r\n",
        closes: true,
    },
    Row {
        asked: Asked {
            method: b"POST",
            version: Version::V11,
            framing: Framing::Fixed(3),
            expects: true,
            keep: true,
            number: 1,
        },
        content_use: ContentUse::Served,
        status: 200,
        sent: Sent::Whole(b"abc"),
        head: b"HTTP/1.1 200 OK\r\ncontent-length: 3\r\ndate: Thu, 01 Jan 1970 00:00:00 GMT\r\n\r\n",
        closes: false,
    },
    Row {
        asked: Asked {
            method: b"POST",
            version: Version::V11,
            framing: Framing::Chunked,
            expects: true,
            keep: true,
            number: 1,
        },
        content_use: ContentUse::Served,
        status: 204,
        sent: Sent::Nothing,
        head: b"HTTP/1.1 204 No Content\r\ndate: Thu, 01 Jan 1970 00:00:00 GMT\r\n\r\n",
        closes: false,
    },
    Row {
        asked: Asked {
            method: b"POST",
            version: Version::V11,
            framing: Framing::Chunked,
            expects: true,
            keep: true,
            number: 1,
        },
        content_use: ContentUse::Refused,
        status: 400,
        sent: Sent::Nothing,
        head: b"HTTP/1.1 400 Bad Request\r\nconnection: close\r\ncontent-length: 0\r\ndate: Thu, 01 Jan 1970 00:00:00 GMT\r\n\r\n",
        closes: true,
    },
];

fn expect(rt: &impl Abort, alloc: Global, row: &Row) -> Result<(), Fail> {
    let request = request(alloc, &row.asked)?;
    let choice = row.sent.choice(alloc)?;
    let state = state(alloc, row.status, List::new(alloc), choice)?;
    let reply = answer_to(alloc, &request, row.asked.number, 0, row.content_use, state)?;
    let head = head(alloc, reply.status, &reply.fields)?;
    assert_eq!(rt; head.as_slice(), row.head);
    assert_eq!(rt; reply.close, row.closes);
    Ok(())
}

fn expect_all(rt: &impl Abort, alloc: Global, rows: &[Row]) -> Result<(), Fail> {
    for row in rows {
        expect(rt, alloc, row)?;
    }
    Ok(())
}

#[test]
fn each_row_has_its_head(rt: HostRuntime) -> Result<(), Fail> {
    expect_all(&rt, rt.alloc(), ROWS)
}
