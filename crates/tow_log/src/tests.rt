//! Each attribute in a line, and the formats that have names of their own.

ghost use Rattle.std.specs.Prelude.{◌<◌};
ghost use Rattle.tow_model.specs.Dates.{first_undated};

mod controls;

use crate::line;
use std::alloc::{AllocError, Global};
use std::process::Abort;
use std::test::Fail;
use tow_attr::read_template;
use tow_model::{Bytes, Choice, Field, Framing, List, NoMemory, Record, Request, Version};

/// `Sun, 06 Nov 1994 08:49:37 GMT`.
const MOMENT: u64 = 784_111_777;

const COMMON: &[u8] = b"%h %l %u %t \"%r\" %s %b";

const COMBINED: &[u8] = b"%h %l %u %t \"%r\" %s %b \"%{i,Referer}\" \"%{i,User-Agent}\"";

/// A name and a value.
type Pair<'a> = (&'a [u8], &'a [u8]);

/// What a row needs of a request and the record of its exchange.
#[derive(Clone, Copy)]
struct Facts<'a> {
    method: &'a [u8],
    url: &'a [u8],
    fields: &'a [Pair<'a>],
    path: &'a [u8],
    query: Option<&'a [u8]>,
    response: &'a [Pair<'a>],
    context: &'a [Pair<'a>],
    content: &'a [u8],
    decided: bool,
}

/// Everything is there.
const PRESENT: Facts = Facts {
    method: b"GET",
    url: b"/a%2Fb",
    fields: &[(b"Host", b"a"), (b"Cookie", b"c=1"), (b"host", b"b")],
    path: b"/b",
    query: Some(b"x=1"),
    response: &[(b"Via", b"d")],
    context: &[(b"who", b"me")],
    content: b"twelve bytes",
    decided: true,
};

/// What may lack is not there.
const ABSENT: Facts = Facts {
    method: b"",
    url: b"",
    fields: &[],
    path: b"",
    query: None,
    response: &[],
    context: &[],
    content: b"",
    decided: true,
};

/// It is there, and has no bytes.
const EMPTY: Facts = Facts {
    method: b"",
    url: b"",
    fields: &[(b"Host", b""), (b"Cookie", b"c=")],
    path: b"",
    query: Some(b"x="),
    response: &[(b"Via", b"")],
    context: &[(b"who", b"")],
    content: b"",
    decided: true,
};

/// Everything is there but a decision.
const UNDECIDED: Facts = Facts {
    decided: false,
    ..PRESENT
};

/// A format, and its line if everything is there, if it is not, if it is empty, and if nothing was
/// decided.
const ATTRIBUTES: [(&[u8], [&[u8]; 4]); 34] = [
    (b"%m", [b"GET", b"-", b"-", b"GET"]),
    (b"%{METHOD}", [b"GET", b"-", b"-", b"GET"]),
    (b"%U", [b"/a%2Fb", b"-", b"-", b"/a%2Fb"]),
    (b"%{REQUEST_URL}", [b"/a%2Fb", b"-", b"-", b"/a%2Fb"]),
    (b"%R", [b"/b", b"-", b"-", b"-"]),
    (b"%{RELATIVE_PATH}", [b"/b", b"-", b"-", b"-"]),
    (b"%q", [b"?x=1", b"-", b"?x=", b"-"]),
    (b"%{QUERY_STRING}", [b"?x=1", b"-", b"?x=", b"-"]),
    (b"%s", [b"404", b"404", b"404", b"-"]),
    (b"%{RESPONSE_CODE}", [b"404", b"404", b"404", b"-"]),
    (
        b"<%r>",
        [
            b"<GET /t HTTP/1.1>",
            b"< /t HTTP/1.1>",
            b"< /t HTTP/1.1>",
            b"<GET /t HTTP/1.1>",
        ],
    ),
    (
        b"<%{REQUEST_LINE}>",
        [
            b"<GET /t HTTP/1.1>",
            b"< /t HTTP/1.1>",
            b"< /t HTTP/1.1>",
            b"<GET /t HTTP/1.1>",
        ],
    ),
    (b"%H", [b"HTTP/1.1", b"HTTP/1.1", b"HTTP/1.1", b"HTTP/1.1"]),
    (
        b"%{PROTOCOL}",
        [b"HTTP/1.1", b"HTTP/1.1", b"HTTP/1.1", b"HTTP/1.1"],
    ),
    (b"%a", [PEER, PEER, PEER, PEER]),
    (b"%{REMOTE_IP}", [PEER, PEER, PEER, PEER]),
    (b"%h", [PEER, PEER, PEER, PEER]),
    (b"%{REMOTE_HOST}", [PEER, PEER, PEER, PEER]),
    (b"%l", [b"-", b"-", b"-", b"-"]),
    (b"%u", [b"-", b"-", b"-", b"-"]),
    (b"%{REMOTE_USER}", [b"-", b"-", b"-", b"-"]),
    (b"%t", [DATE, DATE, DATE, DATE]),
    (b"%{DATE_TIME}", [DATE, DATE, DATE, DATE]),
    (b"%B", [b"12", b"0", b"0", b"-"]),
    (b"%{BYTES_SENT}", [b"12", b"0", b"0", b"-"]),
    (b"%b", [b"12", b"-", b"-", b"-"]),
    (b"%{i,host}", [b"a, b", b"-", b"-", b"a, b"]),
    (b"%{o,VIA}", [b"d", b"-", b"-", b"-"]),
    (b"%{q,x}", [b"1", b"-", b"-", b"-"]),
    (b"%{c,c}", [b"1", b"-", b"-", b"1"]),
    (b"${who}", [b"me", b"-", b"-", b"-"]),
    (b"%%", [b"%", b"%", b"%", b"%"]),
    (b"", [b"", b"", b"", b""]),
    (
        b"<%{q,x}${who}\t>",
        [b"<1me\t>", b"<--\t>", b"<--\t>", b"<--\t>"],
    ),
];

const PEER: &[u8] = b"192.168.1.15";

const DATE: &[u8] = b"[06/Nov/1994:08:49:37 +0000]";

fn pairs(alloc: Global, pairs: &[Pair]) -> Result<List<Field>, AllocError> {
    let mut fields = List::new(alloc);
    for pair in pairs {
        fields.push(Field {
            name: Bytes::from_slice(alloc, pair.0)?,
            value: Bytes::from_slice(alloc, pair.1)?,
        })?;
    }
    Ok(fields)
}

fn request(alloc: Global, facts: &Facts) -> Result<Request, AllocError> {
    Ok(Request {
        method: Bytes::from_slice(alloc, facts.method)?,
        target: Bytes::from_slice(alloc, b"/t")?,
        version: Version::V11,
        fields: pairs(alloc, facts.fields)?,
        url: Bytes::from_slice(alloc, facts.url)?,
        path: Bytes::from_slice(alloc, b"/p")?,
        query: None,
        framing: Framing::Empty,
        expects: false,
        keep: true,
        peer: 0xC0A8_010F,
    })
}

fn exchange(alloc: Global, facts: &Facts) -> Result<Record, AllocError> {
    let query = match facts.query {
        Some(query) => Some(Bytes::from_slice(alloc, query)?),
        None => None,
    };
    let choice = if facts.decided {
        Choice::Whole(Bytes::from_slice(alloc, facts.content)?)
    } else {
        Choice::Undecided
    };
    Ok(Record {
        path: Bytes::from_slice(alloc, facts.path)?,
        query,
        status: 404,
        fields: pairs(alloc, facts.response)?,
        context: pairs(alloc, facts.context)?,
        listeners: List::new(alloc),
        choice,
    })
}

fn line_of(
    alloc: Global,
    format: &[u8],
    request: &Request,
    exchange: &Record,
    moment: u64,
) -> Result<Bytes, NoMemory>
    requires { moment < first_undated }
{
    match read_template(alloc, format) {
        Ok(format) => line(alloc, &format, request, exchange, moment),
        Err(_) => Ok(Bytes::from_slice(alloc, b"no format")?),
    }
}

/// The first row of a column whose line is another.
fn first_wrong(alloc: Global, facts: &Facts, column: usize) -> Result<Option<usize>, NoMemory>
    requires { column < 4 }
{
    let request = request(alloc, facts)?;
    let exchange = exchange(alloc, facts)?;
    for (row, (format, wanted)) in ATTRIBUTES.iter().enumerate() {
        let shown = line_of(alloc, format, &request, &exchange, MOMENT)?;
        if shown.as_slice() != wanted[column] {
            return Ok(Some(row));
        }
    }
    Ok(None)
}

#[test]
fn each_attribute_in_a_line(rt: HostRuntime) -> Result<(), Fail> {
    let alloc = rt.alloc();
    assert_eq!(rt; first_wrong(alloc, &PRESENT, 0)?, None);
    assert_eq!(rt; first_wrong(alloc, &ABSENT, 1)?, None);
    assert_eq!(rt; first_wrong(alloc, &EMPTY, 2)?, None);
    assert_eq!(rt; first_wrong(alloc, &UNDECIDED, 3)?, None);
    Ok(())
}

/// A method, a status, a decision and a format, and the line.
type Standard = (&'static [u8], u16, bool, &'static [u8], &'static [u8]);

/// The two formats that have names of their own, and what was sent, of what a browser asks.
const STANDARDS: [Standard; 10] = [
    (
        b"GET",
        200,
        true,
        COMMON,
        b"127.0.0.1 - - [01/Jan/1970:00:00:00 +0000] \"GET / HTTP/1.1\" 200 12",
    ),
    (
        b"HEAD",
        200,
        true,
        COMMON,
        b"127.0.0.1 - - [01/Jan/1970:00:00:00 +0000] \"HEAD / HTTP/1.1\" 200 -",
    ),
    (
        b"GET",
        304,
        true,
        COMMON,
        b"127.0.0.1 - - [01/Jan/1970:00:00:00 +0000] \"GET / HTTP/1.1\" 304 -",
    ),
    (
        b"GET",
        200,
        false,
        COMMON,
        b"127.0.0.1 - - [01/Jan/1970:00:00:00 +0000] \"GET / HTTP/1.1\" - -",
    ),
    (
        b"GET",
        200,
        true,
        COMBINED,
        b"127.0.0.1 - - [01/Jan/1970:00:00:00 +0000] \"GET / HTTP/1.1\" 200 12 \"/\" \"M/5\"",
    ),
    (
        b"HEAD",
        200,
        true,
        COMBINED,
        b"127.0.0.1 - - [01/Jan/1970:00:00:00 +0000] \"HEAD / HTTP/1.1\" 200 - \"/\" \"M/5\"",
    ),
    (
        b"GET",
        200,
        false,
        COMBINED,
        b"127.0.0.1 - - [01/Jan/1970:00:00:00 +0000] \"GET / HTTP/1.1\" - - \"/\" \"M/5\"",
    ),
    (b"HEAD", 200, true, b"%B %{BYTES_SENT} %b", b"0 0 -"),
    (b"HEAD", 200, false, b"%B %{BYTES_SENT} %b", b"- - -"),
    (b"POST", 200, true, b"%B %{BYTES_SENT} %b", b"12 12 12"),
];

/// The same without what a browser tells of itself, whether its fields are missing or empty.
const UNTOLD: [Standard; 3] = [
    (
        b"GET",
        200,
        true,
        COMMON,
        b"127.0.0.1 - - [01/Jan/1970:00:00:00 +0000] \"GET / HTTP/1.1\" 200 12",
    ),
    (
        b"GET",
        200,
        true,
        COMBINED,
        b"127.0.0.1 - - [01/Jan/1970:00:00:00 +0000] \"GET / HTTP/1.1\" 200 12 \"-\" \"-\"",
    ),
    (
        b"GET",
        200,
        false,
        COMBINED,
        b"127.0.0.1 - - [01/Jan/1970:00:00:00 +0000] \"GET / HTTP/1.1\" - - \"-\" \"-\"",
    ),
];

/// What a browser sends.
const BROWSED: Facts = Facts {
    fields: &[(b"Referer", b"/"), (b"User-Agent", b"M/5")],
    ..PRESENT
};

/// What a program sends that tells nothing of itself.
const SILENT: Facts = Facts {
    fields: &[],
    ..PRESENT
};

/// What a program sends that has nothing to tell.
const HOLLOW: Facts = Facts {
    fields: &[(b"Referer", b""), (b"User-Agent", b"")],
    ..PRESENT
};

fn standard_line(alloc: Global, facts: &Facts, row: &Standard) -> Result<Bytes, NoMemory> {
    let mut request = request(alloc, facts)?;
    request.method = Bytes::from_slice(alloc, row.0)?;
    request.peer = 0x7F00_0001;
    request.target = Bytes::from_slice(alloc, b"/")?;
    let mut exchange = exchange(alloc, facts)?;
    exchange.status = row.1;
    if !row.2 {
        exchange.choice = Choice::Undecided;
    }
    line_of(alloc, row.3, &request, &exchange, 0)
}

fn expect_standards(
    rt: &impl Abort,
    alloc: Global,
    facts: &Facts,
    rows: &[Standard],
) -> Result<(), Fail> {
    for (i, row) in rows.iter().enumerate() {
        let shown = standard_line(alloc, facts, row)?;
        assert!(rt; shown.as_slice() == row.4, "row {i}");
    }
    Ok(())
}

#[test]
fn formats_with_names(rt: HostRuntime) -> Result<(), Fail> {
    let alloc = rt.alloc();
    expect_standards(&rt, alloc, &BROWSED, &STANDARDS)?;
    expect_standards(&rt, alloc, &SILENT, &UNTOLD)?;
    expect_standards(&rt, alloc, &HOLLOW, &UNTOLD)
}
