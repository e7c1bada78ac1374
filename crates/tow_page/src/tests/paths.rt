//! What stands at a path.

use super::folders::{
    FileRow, Row, expect_pages, file, files, folder, page_of, record, request, shown,
};
use crate::decide;
use std::alloc::{AllocError, Global};
use std::process::Abort;
use std::test::Fail;

const TREE: &[FileRow] = &[
    (b"/a.txt", 7, b"abc"),
    (b"/d/default.html", 1, b""),
    (b"/d/index.htm", 8, b"hello"),
    (b"/e/f/x", 9, b"x"),
    (b"/e/x", 10, b"xx"),
    (b"/w/default.htm", 11, b"w"),
    (b"/w/index.html/z", 12, b"z"),
];

const IN_EMPTY: &[Row] = &[
    (b"/", None, false, b"nothing"),
    (b"/", None, true, b"nothing"),
    (b"/a", None, true, b"nothing"),
    (b"/a/", None, true, b"nothing"),
    (b"", None, true, b"nothing"),
];

const IN_TREE: &[Row] = &[
    (b"/a.txt", None, false, b"/a.txt 3 7"),
    (b"/a.txt/", None, true, b"nothing"),
    (b"/a", None, true, b"nothing"),
    (b"/d", None, false, b"to /d/"),
    (b"/d", Some(b"x=1"), false, b"to /d/?x=1"),
    (b"/d", Some(b""), true, b"to /d/?"),
    (
        b"/d",
        Some(b"a b%\"\xc3\xa4?/"),
        true,
        b"to /d/?a%20b%\"%C3%A4?/",
    ),
    (b"/d/", Some(b"x=1"), false, b"/d/index.htm 5 8"),
    (b"/d/", None, true, b"/d/index.htm 5 8"),
    (b"/d/index.htm", None, true, b"/d/index.htm 5 8"),
    (b"/d/index.htm/", None, true, b"nothing"),
    (b"/e/", None, false, b"forbidden"),
    (b"/e/f/", None, false, b"forbidden"),
    (b"/e/g/", None, true, b"nothing"),
    (b"/w/", None, false, b"/w/default.htm 1 11"),
    (b"/w/index.html", None, false, b"to /w/index.html/"),
    (b"/", None, false, b"forbidden"),
    (b"//", None, true, b"nothing"),
    (b"/e//x", None, true, b"nothing"),
    (b"//e/x", None, true, b"nothing"),
    (b"/e/x//", None, true, b"nothing"),
    (b"/e/\x00", None, true, b"nothing"),
    (b"/\xff", None, true, b"nothing"),
    (b"/e/\xc3/", None, true, b"nothing"),
    (b"e/x", None, true, b"nothing"),
    (b"", None, true, b"nothing"),
];

#[test]
fn an_empty_folder_has_nothing(rt: HostRuntime) -> Result<(), Fail> {
    expect_pages(&rt, rt.alloc(), &[], IN_EMPTY)
}

#[test]
fn a_path_leads_to_what_stands_there(rt: HostRuntime) -> Result<(), Fail> {
    expect_pages(&rt, rt.alloc(), TREE, IN_TREE)
}

/// A method, a location, a path, and the page.
type Asked = (&'static [u8], &'static [u8], &'static [u8], &'static [u8]);

const ASKED: &[Asked] = &[
    (b"GET", b"/e", b"/x", b"/e/x 2 10"),
    (b"HEAD", b"/e", b"/x", b"/e/x 2 10"),
    (b"GET", b"/e", b"/f", b"to /f/"),
    (b"GET", b"/e/f", b"", b"to /"),
    (b"GET", b"/e", b"/f/", b"forbidden"),
    (b"GET", b"/e/", b"/x", b"nothing"),
    (b"GET", b"/\xff", b"/x", b"nothing"),
    (b"GET", b"/a.t", b"xt", b"/a.txt 3 7"),
    (b"POST", b"/e", b"/x", b"method"),
    (b"PUT", b"", b"/none", b"method"),
    (b"get", b"", b"/a.txt", b"method"),
    (b"", b"", b"/a.txt", b"method"),
    (b"GETS", b"", b"/a.txt", b"method"),
    (b"OPTIONS", b"", b"*", b"method"),
];

fn expect_asked(rt: &impl Abort, alloc: Global, rows: &[Asked]) -> Result<(), Fail> {
    let mut folder = folder(rt, alloc, files(alloc, TREE)?)?;
    for (method, location, path, page) in rows {
        let request = request(alloc, method, &[])?;
        let x = record(alloc, path, None)?;
        let found = decide(alloc, &mut folder, 3, location, false, &request, &x);
        assert_eq!(rt; shown(alloc, found)?.as_slice(), *page);
    }
    Ok(())
}

#[test]
fn a_location_stands_before_the_path(rt: HostRuntime) -> Result<(), Fail> {
    expect_asked(&rt, rt.alloc(), ASKED)
}

/// A path of so many bytes, at least one.
fn long_path(alloc: Global, len: usize) -> Result<Vec<u8>, AllocError> {
    let mut path = Vec::from_slice(alloc, b"/")?;
    for _ in 1..len {
        path.push(b'x')?;
    }
    Ok(path)
}

fn behind(alloc: Global, path: &[u8], name: &[u8]) -> Result<Vec<u8>, AllocError> {
    let mut longer = Vec::from_slice(alloc, path)?;
    longer.extend_from_slice(name)?;
    Ok(longer)
}

/// How many bytes are shown of the page of the path where the folder has one file.
fn size_with(
    rt: &impl Abort,
    alloc: Global,
    file_path: &[u8],
    path: &[u8],
) -> Result<usize, AllocError> {
    let mut files = Vec::new(alloc);
    files.push(file(alloc, file_path, 5, b"abc")?)?;
    let mut folder = folder(rt, alloc, files)?;
    let page = page_of(alloc, &mut folder, path, None, true)?;
    Ok(page.len())
}

#[test]
fn a_path_of_the_most_bytes_is_looked_up(rt: HostRuntime) -> Result<(), Fail> {
    let alloc = rt.alloc();
    let path = long_path(alloc, 65_536)?;
    let child = behind(alloc, &path, b"/y")?;
    let directory = behind(alloc, &path, b"/")?;
    assert_eq!(rt; size_with(&rt, alloc, &path, &path)?, 65_536 + 4);
    assert_eq!(rt; size_with(&rt, alloc, &child, &path)?, 3 + 65_536 + 1);
    assert_eq!(rt;
        size_with(&rt, alloc, &child, &directory)?,
        92 + 65_537 + 27
    );
    assert_eq!(rt; size_with(&rt, alloc, b"/a", &path)?, 7);
    Ok(())
}
