ghost use Rattle.std.specs.Prelude.{◌<◌};
ghost use Rattle.tow_model.specs.Dates.{first_undated};

use crate::{Attribute, Piece, append_attribute, read_template, value};
use std::alloc::{AllocError, Global};
use std::process::Abort;
use std::test::Fail;
use tow_model::{Bytes, Choice, Field, Framing, List, NoMemory, Record, Request, Version};

/// `Sun, 06 Nov 1994 08:49:37 GMT`.
const MOMENT: u64 = 784_111_777;

/// A name and a value.
type Line<'a> = (&'a [u8], &'a [u8]);

fn lines(alloc: Global, lines: &[Line]) -> Result<List<Field>, AllocError> {
    let mut fields = List::new(alloc);
    for line in lines {
        fields.push(Field {
            name: Bytes::from_slice(alloc, line.0)?,
            value: Bytes::from_slice(alloc, line.1)?,
        })?;
    }
    Ok(fields)
}

fn request(alloc: Global, method: &[u8], fields: &[Line]) -> Result<Request, AllocError> {
    Ok(Request {
        method: Bytes::from_slice(alloc, method)?,
        target: Bytes::from_slice(alloc, b"/a%2Fb?x=1")?,
        version: Version::V11,
        fields: lines(alloc, fields)?,
        url: Bytes::from_slice(alloc, b"/a%2Fb")?,
        path: Bytes::from_slice(alloc, b"/a/b")?,
        query: Some(Bytes::from_slice(alloc, b"x=1")?),
        framing: Framing::Empty,
        expects: false,
        keep: true,
        peer: 0xC0A8_010F,
    })
}

fn exchange(
    alloc: Global,
    query: &[u8],
    fields: &[Line],
    context: &[Line],
) -> Result<Record, AllocError> {
    Ok(Record {
        path: Bytes::from_slice(alloc, b"/b")?,
        query: Some(Bytes::from_slice(alloc, query)?),
        status: 404,
        fields: lines(alloc, fields)?,
        context: lines(alloc, context)?,
        listeners: List::new(alloc),
        choice: Choice::Whole(Bytes::from_slice(alloc, b"twelve bytes")?),
    })
}

/// A request and the record of its exchange that have nothing but what each has.
fn bare(alloc: Global) -> Result<(Request, Record), AllocError> {
    let mut request = request(alloc, b"", &[])?;
    request.version = Version::V10;
    request.peer = 0;
    let mut exchange = exchange(alloc, b"", &[], &[])?;
    exchange.query = None;
    exchange.choice = Choice::Undecided;
    Ok((request, exchange))
}

fn text_of(
    alloc: Global,
    text: &[u8],
    request: &Request,
    exchange: &Record,
    moment: u64,
) -> Result<Bytes, NoMemory>
    requires { moment < first_undated }
{
    match read_template(alloc, text) {
        Ok(template) => value(alloc, &template, request, exchange, moment),
        Err(_) => Ok(Bytes::from_slice(alloc, b"no template")?),
    }
}

#[test]
fn values_of_each_attribute(rt: HostRuntime) -> Result<(), Fail> {
    let alloc = rt.alloc();
    let request = request(alloc, b"GET", &[])?;
    let exchange = exchange(alloc, b"x=1", &[], &[])?;
    let rows: [(&[u8], &[u8]); 28] = [
        (b"", b""),
        (b"%m", b"GET"),
        (b"%{METHOD}", b"GET"),
        (b"%U", b"/a%2Fb"),
        (b"%{REQUEST_URL}", b"/a%2Fb"),
        (b"%R", b"/b"),
        (b"%{RELATIVE_PATH}", b"/b"),
        (b"%q", b"?x=1"),
        (b"%{QUERY_STRING}", b"?x=1"),
        (b"%s", b"404"),
        (b"%{RESPONSE_CODE}", b"404"),
        (b"%r", b"GET /a%2Fb?x=1 HTTP/1.1"),
        (b"%{REQUEST_LINE}", b"GET /a%2Fb?x=1 HTTP/1.1"),
        (b"%H", b"HTTP/1.1"),
        (b"%{PROTOCOL}", b"HTTP/1.1"),
        (b"%a", b"192.168.1.15"),
        (b"%{REMOTE_IP}", b"192.168.1.15"),
        (b"%h", b"192.168.1.15"),
        (b"%{REMOTE_HOST}", b"192.168.1.15"),
        (b"%l", b"-"),
        (b"%u", b"-"),
        (b"%{REMOTE_USER}", b"-"),
        (b"%t", b"[06/Nov/1994:08:49:37 +0000]"),
        (b"%{DATE_TIME}", b"[06/Nov/1994:08:49:37 +0000]"),
        (b"%B", b"12"),
        (b"%{BYTES_SENT}", b"12"),
        (b"%b", b"12"),
        (b"a%%b%m-%s%q", b"a%bGET-404?x=1"),
    ];
    for (i, (text, wanted)) in rows.iter().enumerate() {
        let shown = text_of(alloc, text, &request, &exchange, MOMENT)?;
        assert!(rt; shown.as_slice() == *wanted, "row {i}");
    }
    Ok(())
}

#[test]
fn absent_values_are_empty(rt: HostRuntime) -> Result<(), Fail> {
    let alloc = rt.alloc();
    let (request, exchange) = bare(alloc)?;
    let rows: [(&[u8], &[u8]); 12] = [
        (b"<%m>", b"<>"),
        (b"<%q>", b"<>"),
        (b"%r", b" /a%2Fb?x=1 HTTP/1.0"),
        (b"%a", b"0.0.0.0"),
        (b"%t", b"[01/Jan/1970:00:00:00 +0000]"),
        (b"%B", b"0"),
        (b"%b", b"-"),
        (b"<%{i,host}>", b"<>"),
        (b"<%{o,host}>", b"<>"),
        (b"<%{q,x}>", b"<>"),
        (b"<%{c,x}>", b"<>"),
        (b"<${x}>", b"<>"),
    ];
    for (i, (text, wanted)) in rows.iter().enumerate() {
        let shown = text_of(alloc, text, &request, &exchange, 0)?;
        assert!(rt; shown.as_slice() == *wanted, "row {i}");
    }
    Ok(())
}

#[test]
fn values_by_name(rt: HostRuntime) -> Result<(), Fail> {
    let alloc = rt.alloc();
    let request = request(
        alloc,
        b"GET",
        &[
            (b"X-A", b"one"),
            (b"Cookie", b"a=1; b = 2;\tb=3 ;c"),
            (b"x-a", b"two, three"),
            (b"COOKIE", b"d=x=y;a=9;"),
            (b"X-a", b""),
        ],
    )?;
    let exchange = exchange(
        alloc,
        b"x=1&b%20c=%2Bz+%4&x=2&none&&=n&e=a=b",
        &[(b"Via", b"b"), (b"via", b"c")],
        &[(b"who", b"me"), (b"Who", b"You")],
    )?;
    let rows: [(&[u8], &[u8]); 19] = [
        (b"%{i,X-A}", b"one, two, three, "),
        (b"%{i,via}", b""),
        (b"%{o,VIA}", b"b, c"),
        (b"%{q,x}", b"1"),
        (b"%{q,b c}", b"+z+%4"),
        (b"%{q,b%20c}", b""),
        (b"%{q,none}", b""),
        (b"%{q,e}", b"a=b"),
        (b"%{q,X}", b""),
        (b"%{c,a}", b"1"),
        (b"%{c,b}", b"3"),
        (b"%{c,b }", b" 2"),
        (b"%{c,c}", b""),
        (b"%{c,d}", b"x=y"),
        (b"%{c,A}", b""),
        (b"${who}", b"me"),
        (b"${Who}", b"You"),
        (b"${WHO}", b""),
        (b"%{q,x}%{c,a}${who}", b"11me"),
    ];
    for (i, (text, wanted)) in rows.iter().enumerate() {
        let shown = text_of(alloc, text, &request, &exchange, MOMENT)?;
        assert!(rt; shown.as_slice() == *wanted, "row {i}");
    }
    Ok(())
}

/// What `%B` and `%b` are under a method, a status and a choice.
fn expect_sent(
    rt: &impl Abort,
    alloc: Global,
    method: &[u8],
    status: u16,
    choice: Choice,
    wanted: &str,
) -> Result<(), NoMemory> {
    let request = request(alloc, method, &[])?;
    let mut exchange = exchange(alloc, b"", &[], &[])?;
    exchange.status = status;
    exchange.choice = choice;
    let shown = text_of(alloc, b"%B %b", &request, &exchange, MOMENT)?;
    assert_eq!(rt; shown.as_slice(), wanted.as_bytes());
    Ok(())
}

#[test]
fn bytes_sent(rt: HostRuntime) -> Result<(), Fail> {
    let alloc = rt.alloc();
    let hello = || Bytes::from_slice(alloc, b"hello");
    expect_sent(&rt, alloc, b"GET", 200, Choice::Whole(hello()?), "5 5")?;
    expect_sent(&rt, alloc, b"GET", 200, Choice::Listing(hello()?), "5 5")?;
    expect_sent(&rt, alloc, b"HEAD", 200, Choice::Whole(hello()?), "0 -")?;
    expect_sent(&rt, alloc, b"GET", 204, Choice::Whole(hello()?), "0 -")?;
    expect_sent(&rt, alloc, b"GET", 304, Choice::Whole(hello()?), "0 -")?;
    expect_sent(&rt, alloc, b"GET", 200, Choice::Empty, "0 -")?;
    expect_sent(&rt, alloc, b"GET", 200, Choice::Undecided, "0 -")?;
    let file = Choice::File {
        path: hello()?,
        len: 18_446_744_073_709_551_615,
    };
    expect_sent(
        &rt,
        alloc,
        b"GET",
        206,
        file,
        "18446744073709551615 18446744073709551615",
    )?;
    Ok(())
}

/// The value of so many bytes and then the method, which is `GET`.
fn cut_value(alloc: Global, len: usize) -> Result<Bytes, NoMemory> {
    let mut bytes = Vec::new(alloc);
    bytes.resize(len, b'x')?;
    let mut template = List::new(alloc);
    template.push(Piece::Literal(Bytes::from_vec(bytes)))?;
    template.push(Piece::Value(Attribute::Method))?;
    value(
        alloc,
        &template,
        &request(alloc, b"GET", &[])?,
        &exchange(alloc, b"", &[], &[])?,
        MOMENT,
    )
}

#[test]
fn values_are_cut(rt: HostRuntime) -> Result<(), Fail> {
    let alloc = rt.alloc();
    let rows: [(usize, usize, u8); 6] = [
        (65_532, 65_535, b'T'),
        (65_533, 65_536, b'T'),
        (65_534, 65_536, b'E'),
        (65_535, 65_536, b'G'),
        (65_536, 65_536, b'x'),
        (65_537, 65_536, b'x'),
    ];
    for (i, (len, wanted, last)) in rows.iter().enumerate() {
        let shown = cut_value(alloc, *len)?;
        assert!(rt; shown.len() == *wanted, "row {i}");
        assert!(rt; shown.as_slice().ends_with(&[*last]), "row {i}");
    }
    Ok(())
}

#[test]
fn an_attribute_is_written_behind(rt: HostRuntime) -> Result<(), Fail> {
    let alloc = rt.alloc();
    let mut out = Vec::from_slice(alloc, b"status ")?;
    let request = request(alloc, b"GET", &[])?;
    let exchange = exchange(alloc, b"", &[], &[])?;
    append_attribute(&mut out, &Attribute::Status, &request, &exchange, MOMENT)?;
    assert_eq!(rt; out.as_slice(), b"status 404".as_slice());
    Ok(())
}
