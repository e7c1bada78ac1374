//! Pages and the records that they make.

ghost use Rattle.std.specs.Prelude.{◌≢◌, IfOk};

use crate::{End, apply, content_type};
use std::alloc::{AllocError, Global};
use std::process::Abort;
use std::test::Fail;
use tow_model::{Bytes, Choice, Field, List, Page, Record};

/// A path, and the content type of its file.
type TypeRow = (&'static [u8], &'static [u8]);

const TYPES: &[TypeRow] = &[
    (b"/index.html", b"text/html; charset=utf-8"),
    (b"/a.HTM", b"text/html; charset=utf-8"),
    (b"/.html", b"text/html; charset=utf-8"),
    (b"/a.txt", b"text/plain; charset=utf-8"),
    (b"/a.css", b"text/css"),
    (b"/a.min.js", b"text/javascript"),
    (b"/a.json", b"application/json"),
    (b"/a.xml", b"application/xml"),
    (b"/a.svg", b"image/svg+xml"),
    (b"/a.Png", b"image/png"),
    (b"/a.gif", b"image/gif"),
    (b"/a.jpg", b"image/jpeg"),
    (b"/a.jpeg", b"image/jpeg"),
    (b"/a.pdf", b"application/pdf"),
    (b"/a.html.gz", b"application/octet-stream"),
    (b"/a.html/b", b"application/octet-stream"),
    (b"/a", b"application/octet-stream"),
    (b"/a.", b"application/octet-stream"),
    (b"/htm", b"application/octet-stream"),
    (b"", b"application/octet-stream"),
    (b".txt", b"text/plain; charset=utf-8"),
    (b"/x/", b"application/octet-stream"),
];

fn expect_types(rt: &impl Abort, rows: &[TypeRow]) {
    for (path, want) in rows {
        assert_eq!(rt; content_type(path), *want);
    }
}

#[test]
fn each_suffix_has_its_type(rt: HostRuntime) -> Result<(), Fail> {
    expect_types(&rt, TYPES);
    Ok(())
}

/// A page; whether the record has a content type before; what follows; the record's fields, each as `name: value` and a
/// line end; and the first byte of its choice's name: `U` for undecided, `F` for a file, `L` for a listing.
type Row = (Found, bool, End, &'static [u8], u8);

/// A page of a row.
#[derive(Clone, Copy)]
enum Found {
    File(&'static [u8], u64),
    Redirect(&'static [u8]),
    Listing(&'static [u8]),
    Forbidden,
    NotModified(u64),
    NotFound,
    BadMethod,
}

const ROWS: &[Row] = &[
    (
        Found::File(b"/a.css", 784_111_777),
        false,
        End::Stops,
        b"content-type: text/css\nlast-modified: Sun, 06 Nov 1994 08:49:37 GMT\n",
        b'F',
    ),
    (
        Found::File(b"/a.css", 0),
        true,
        End::Stops,
        b"content-type: x/y\nlast-modified: Thu, 01 Jan 1970 00:00:00 GMT\n",
        b'F',
    ),
    (
        Found::File(b"/a", 253_402_300_800),
        false,
        End::Stops,
        b"content-type: application/octet-stream\n",
        b'F',
    ),
    (
        Found::Redirect(b"/d/?x=1"),
        true,
        End::Answers(302),
        b"content-type: x/y\nlocation: /d/?x=1\n",
        b'U',
    ),
    (
        Found::Listing(b"<!DOCTYPE html>"),
        false,
        End::Stops,
        b"content-type: text/html; charset=utf-8\n",
        b'L',
    ),
    (
        Found::Listing(b""),
        true,
        End::Stops,
        b"content-type: x/y\n",
        b'L',
    ),
    (
        Found::Forbidden,
        true,
        End::Answers(403),
        b"content-type: x/y\n",
        b'U',
    ),
    (
        Found::NotModified(784_111_777),
        true,
        End::Answers(304),
        b"last-modified: Sun, 06 Nov 1994 08:49:37 GMT\n",
        b'U',
    ),
    (
        Found::NotModified(253_402_300_800),
        false,
        End::Answers(304),
        b"",
        b'U',
    ),
    (
        Found::NotFound,
        true,
        End::GoesOn,
        b"content-type: x/y\n",
        b'U',
    ),
    (
        Found::BadMethod,
        false,
        End::Answers(405),
        b"allow: GET, HEAD\n",
        b'U',
    ),
];

fn page(alloc: Global, found: Found) -> Result<Page, AllocError>
    ensures no_fault { IfOk result (λ page. page ≢ Page.FolderFault) }
    ensures no_want { IfOk result (λ page. page ≢ Page.NoMemory) }
{
    Ok(match found {
        Found::File(path, second) => Page::Serve {
            path: Bytes::from_slice(alloc, path)?,
            len: 3,
            second,
        },
        Found::Redirect(location) => Page::Redirect(Bytes::from_slice(alloc, location)?),
        Found::Listing(bytes) => Page::Listing(Bytes::from_slice(alloc, bytes)?),
        Found::Forbidden => Page::Forbidden,
        Found::NotModified(second) => Page::NotModified { second },
        Found::NotFound => Page::NotFound,
        Found::BadMethod => Page::BadMethod,
    })
}

fn record(alloc: Global, is_typed: bool) -> Result<Record, AllocError> {
    let mut fields = List::new(alloc);
    if is_typed {
        fields.push(Field {
            name: Bytes::from_slice(alloc, b"content-type")?,
            value: Bytes::from_slice(alloc, b"x/y")?,
        })?;
    }
    Ok(Record {
        path: Bytes::from_slice(alloc, b"/")?,
        query: None,
        status: 200,
        fields,
        context: List::new(alloc),
        listeners: List::new(alloc),
        choice: Choice::Undecided,
    })
}

fn shown(alloc: Global, fields: &[Field]) -> Result<Vec<u8>, AllocError> {
    let mut shown = Vec::new(alloc);
    for field in fields {
        shown.extend_from_slice(field.name.as_slice())?;
        shown.extend_from_slice(b": ")?;
        shown.extend_from_slice(field.value.as_slice())?;
        shown.push(b'\n')?;
    }
    Ok(shown)
}

fn letter(choice: &Choice) -> u8 {
    match choice {
        Choice::Undecided => b'U',
        Choice::Empty => b'E',
        Choice::Whole(_) => b'W',
        Choice::File { .. } => b'F',
        Choice::Listing(_) => b'L',
    }
}

fn expect(rt: &impl Abort, alloc: Global, row: &Row, number: usize) -> Result<(), Fail> {
    let (found, is_typed, end, fields, choice) = *row;
    let mut record = record(alloc, is_typed)?;
    assert_eq!(rt;
        apply(alloc, page(alloc, found)?, &mut record)?,
        end,
        "row {number}"
    );
    let shown = shown(alloc, record.fields.as_slice())?;
    assert_eq!(rt; shown.as_slice(), fields, "row {number}");
    assert_eq!(rt; letter(&record.choice), choice, "row {number}");
    Ok(())
}

fn expect_all(rt: &impl Abort, alloc: Global, rows: &[Row]) -> Result<(), Fail> {
    for (number, row) in rows.iter().enumerate() {
        expect(rt, alloc, row, number)?;
    }
    Ok(())
}

#[test]
fn each_page_makes_its_record(rt: HostRuntime) -> Result<(), Fail> {
    expect_all(&rt, rt.alloc(), ROWS)
}
