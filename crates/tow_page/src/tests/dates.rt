//! Files that the client has.

use super::folders::{FileRow, files, folder, record, request, shown};
use crate::decide;
use std::alloc::Global;
use std::process::Abort;
use std::test::Fail;

const FILES: &[FileRow] = &[
    (b"/a", 784_111_777, b"a"),
    (b"/d/index.html", 784_111_777, b"d"),
];

const AT: &[u8] = b"Sun, 06 Nov 1994 08:49:37 GMT";

const BEFORE: &[u8] = b"Sun, 06 Nov 1994 08:49:36 GMT";

const AFTER: &[u8] = b"Sun, 06 Nov 1994 08:49:38 GMT";

const SINCE: &[u8] = b"if-modified-since";

/// The field lines, the record's status, and whether the client has the file.
type Row = (&'static [(&'static [u8], &'static [u8])], u16, bool);

const ROWS: &[Row] = &[
    (&[], 200, false),
    (&[(SINCE, AT)], 200, true),
    (&[(SINCE, AFTER)], 200, true),
    (&[(SINCE, BEFORE)], 200, false),
    (&[(b"If-Modified-SINCE", AT)], 200, true),
    (&[(SINCE, b"Sunday, 06-Nov-94 08:49:37 GMT")], 200, true),
    (&[(SINCE, b"Sun Nov  6 08:49:37 1994")], 200, true),
    (&[(SINCE, b"today")], 200, false),
    (&[(SINCE, b"")], 200, false),
    (&[(SINCE, AT)], 201, false),
    (&[(SINCE, AT), (SINCE, AT)], 200, false),
    (&[(b"a", b"b"), (SINCE, AT), (b"c", b"d")], 200, true),
    (&[(SINCE, AT), (b"c", b"d"), (SINCE, b"x")], 200, false),
    (&[(b"if-none-match", b"*"), (SINCE, AT)], 200, false),
    (&[(SINCE, AT), (b"If-None-Match", b"")], 200, false),
];

/// A path, the page as it is, and the page that the client has.
const PATHS: &[(&[u8], &[u8], &[u8])] = &[
    (b"/a", b"/a 1 784111777", b"unchanged 784111777"),
    (b"/d/", b"/d/index.html 1 784111777", b"unchanged 784111777"),
    (b"/d", b"to /d/", b"to /d/"),
];

fn expect_dated(rt: &impl Abort, alloc: Global, row: &Row) -> Result<(), Fail> {
    let (fields, status, unchanged) = row;
    let mut folder = folder(rt, alloc, files(alloc, FILES)?)?;
    let request = request(alloc, b"GET", fields)?;
    for (path, whole, kept) in PATHS {
        let mut x = record(alloc, path, None)?;
        x.status = *status;
        let found = decide(alloc, &mut folder, 0, b"", true, &request, &x);
        let expected = if *unchanged { *kept } else { *whole };
        assert_eq!(rt; shown(alloc, found)?.as_slice(), expected);
    }
    Ok(())
}

fn expect_all(rt: &impl Abort, alloc: Global, rows: &[Row]) -> Result<(), Fail> {
    for row in rows {
        expect_dated(rt, alloc, row)?;
    }
    Ok(())
}

#[test]
fn a_client_may_have_the_file(rt: HostRuntime) -> Result<(), Fail> {
    expect_all(&rt, rt.alloc(), ROWS)
}
