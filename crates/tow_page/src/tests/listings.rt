//! Directories as pages.

use super::folders::{FileRow, Row, expect_pages, file, folder, page_of};
use std::alloc::{AllocError, Global};
use std::process::Abort;
use std::test::Fail;

const FILES: &[FileRow] = &[
    (b"/d/b", 0, b""),
    (b"/d/a/y", 0, b""),
    (b"/d/a/x", 0, b""),
    (b"/d/\xc3\xa4", 0, b""),
    (b"/d/B", 0, b""),
    (b"/d/a.txt", 0, b""),
    (b"/q/a&<b>\"%/z", 0, b""),
];

const PAGES: &[Row] = &[
    (
        b"/d/",
        Some(b"x=1"),
        true,
        b"<!DOCTYPE html>\n\
          <html><head><title>Index of /d/</title></head><body>\n\
          <ul>\n\
          <li><a href=\"B\">B</a></li>\n\
          <li><a href=\"a/\">a/</a></li>\n\
          <li><a href=\"a.txt\">a.txt</a></li>\n\
          <li><a href=\"b\">b</a></li>\n\
          <li><a href=\"%C3%A4\">\xc3\xa4</a></li>\n\
          </ul>\n\
          </body></html>\n",
    ),
    (
        b"/q/a&<b>\"%/",
        None,
        true,
        b"<!DOCTYPE html>\n\
          <html><head><title>Index of /q/a&amp;&lt;b&gt;&quot;%/</title></head><body>\n\
          <ul>\n\
          <li><a href=\"z\">z</a></li>\n\
          </ul>\n\
          </body></html>\n",
    ),
    (
        b"/q/",
        None,
        true,
        b"<!DOCTYPE html>\n\
          <html><head><title>Index of /q/</title></head><body>\n\
          <ul>\n\
          <li><a href=\"a%26%3Cb%3E%22%25/\">a&amp;&lt;b&gt;&quot;%/</a></li>\n\
          </ul>\n\
          </body></html>\n",
    ),
    (
        b"/",
        None,
        true,
        b"<!DOCTYPE html>\n\
          <html><head><title>Index of /</title></head><body>\n\
          <ul>\n\
          <li><a href=\"d/\">d/</a></li>\n\
          <li><a href=\"q/\">q/</a></li>\n\
          </ul>\n\
          </body></html>\n",
    ),
];

#[test]
fn names_are_listed_in_order(rt: HostRuntime) -> Result<(), Fail> {
    expect_pages(&rt, rt.alloc(), FILES, PAGES)
}

/// The path of the file of this number in the directory: three digits and 97 letters.
fn long_path(alloc: Global, directory: &[u8], number: u8) -> Result<Vec<u8>, AllocError> {
    let mut path = Vec::from_slice(alloc, directory)?;
    path.extend_from_slice(&[b'0', b'0' + number / 10 % 10, b'0' + number % 10])?;
    for _ in 0..97 {
        path.extend_from_slice(b"x")?;
    }
    Ok(path)
}

/// How many bytes the listing of 72 names of 100 bytes and one of 32 has.
fn size_in(rt: &impl Abort, alloc: Global, directory: &[u8]) -> Result<usize, AllocError> {
    let mut files = Vec::new(alloc);
    for number in 0..72 {
        let path = long_path(alloc, directory, number)?;
        files.push(file(alloc, &path, 0, b"")?)?;
    }
    let mut path = Vec::from_slice(alloc, directory)?;
    path.extend_from_slice(b"yyyyyyyyyyyyyyyyyyyyyyyyyyyyyyyy")?;
    files.push(file(alloc, &path, 0, b"")?)?;
    let mut folder = folder(rt, alloc, files)?;
    let page = page_of(alloc, &mut folder, directory, None, true)?;
    Ok(page.len())
}

#[test]
fn a_listing_has_the_bytes_of_its_names(rt: HostRuntime) -> Result<(), Fail> {
    let alloc = rt.alloc();
    assert_eq!(rt; size_in(&rt, alloc, b"/d/")?, 16_384);
    assert_eq!(rt; size_in(&rt, alloc, b"/de/")?, 16_385);
    Ok(())
}
