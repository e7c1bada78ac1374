//! Folders, requests and records for the tests, and pages as texts.

use crate::decide;
use std::alloc::{AllocError, Global};
use std::process::Abort;
use std::test::Fail;
use tow_folder::{FailingCalls, MemoryFile, MemoryFolder};
use tow_model::{Bytes, Choice, Field, Framing, List, Page, Record, Request, Version};

/// A file of a folder: its path, its second and its bytes.
pub(crate) type FileRow = (&'static [u8], u64, &'static [u8]);

pub(crate) fn file(
    alloc: Global,
    path: &[u8],
    second: u64,
    bytes: &[u8],
) -> Result<MemoryFile, AllocError> {
    Ok(MemoryFile {
        path: Bytes::from_slice(alloc, path)?,
        second,
        bytes: Bytes::from_slice(alloc, bytes)?,
    })
}

pub(crate) fn files(alloc: Global, rows: &[FileRow]) -> Result<Vec<MemoryFile>, AllocError> {
    let mut files = Vec::new(alloc);
    for (path, second, bytes) in rows {
        files.push(file(alloc, path, *second, bytes)?)?;
    }
    Ok(files)
}

/// The folder of these files in which these looks and these calls for names fail.
pub(crate) fn failing_folder(
    rt: &impl Abort,
    alloc: Global,
    files: Vec<MemoryFile>,
    look: &[u64],
    names: &[u64],
) -> Result<MemoryFolder, AllocError> {
    let failing = FailingCalls {
        look: look.to_vec(alloc)?,
        read_at: Vec::new(alloc),
        names: names.to_vec(alloc)?,
    };
    match MemoryFolder::new(alloc, files, failing) {
        Ok(folder) => Ok(folder),
        Err(_) => panic!(rt; "the files are no folder"),
    }
}

pub(crate) fn folder(
    rt: &impl Abort,
    alloc: Global,
    files: Vec<MemoryFile>,
) -> Result<MemoryFolder, AllocError> {
    failing_folder(rt, alloc, files, &[], &[])
}

/// A request of this method with these field lines.
pub(crate) fn request(
    alloc: Global,
    method: &[u8],
    fields: &[(&[u8], &[u8])],
) -> Result<Request, AllocError> {
    let mut lines = List::new(alloc);
    for (name, value) in fields {
        lines.push(Field {
            name: Bytes::from_slice(alloc, name)?,
            value: Bytes::from_slice(alloc, value)?,
        })?;
    }
    Ok(Request {
        method: Bytes::from_slice(alloc, method)?,
        target: Bytes::from_vec(Vec::new(alloc)),
        version: Version::V11,
        fields: lines,
        url: Bytes::from_vec(Vec::new(alloc)),
        path: Bytes::from_vec(Vec::new(alloc)),
        query: None,
        framing: Framing::Empty,
        expects: false,
        keep: true,
        peer: 0,
    })
}

/// A record with this path and this query.
pub(crate) fn record(
    alloc: Global,
    path: &[u8],
    query: Option<&[u8]>,
) -> Result<Record, AllocError> {
    let query = match query {
        Some(query) => Some(Bytes::from_slice(alloc, query)?),
        None => None,
    };
    Ok(Record {
        path: Bytes::from_slice(alloc, path)?,
        query,
        status: 200,
        fields: List::new(alloc),
        context: List::new(alloc),
        listeners: List::new(alloc),
        choice: Choice::Undecided,
    })
}

fn put_number(alloc: Global, out: &mut Vec<u8>, number: u64) -> Result<(), AllocError> {
    out.extend_from_slice(format!(in alloc; " {number}")?.as_bytes())
}

/// What the page holds, in words.
pub(crate) fn shown(alloc: Global, page: Page) -> Result<Vec<u8>, AllocError> {
    let mut out = Vec::new(alloc);
    match page {
        Page::Serve { path, len, second } => {
            out.extend_from_slice(path.as_slice())?;
            put_number(alloc, &mut out, len)?;
            put_number(alloc, &mut out, second)?;
        }
        Page::Redirect(location) => {
            out.extend_from_slice(b"to ")?;
            out.extend_from_slice(location.as_slice())?;
        }
        Page::Listing(bytes) => out.extend_from_slice(bytes.as_slice())?,
        Page::Forbidden => out.extend_from_slice(b"forbidden")?,
        Page::NotModified { second } => {
            out.extend_from_slice(b"unchanged")?;
            put_number(alloc, &mut out, second)?;
        }
        Page::NotFound => out.extend_from_slice(b"nothing")?,
        Page::BadMethod => out.extend_from_slice(b"method")?,
        Page::FolderFault => out.extend_from_slice(b"fault")?,
        Page::NoMemory => out.extend_from_slice(b"memory")?,
    }
    Ok(out)
}

/// The page for GET of this path after no location.
pub(crate) fn page_of(
    alloc: Global,
    folder: &mut MemoryFolder,
    path: &[u8],
    query: Option<&[u8]>,
    listing: bool,
) -> Result<Vec<u8>, AllocError> {
    let request = request(alloc, b"GET", &[])?;
    let x = record(alloc, path, query)?;
    shown(alloc, decide(alloc, folder, 3, b"", listing, &request, &x))
}

/// A path, its query, whether directories are listed, and the page.
pub(crate) type Row = (&'static [u8], Option<&'static [u8]>, bool, &'static [u8]);

pub(crate) fn expect_pages(
    rt: &impl Abort,
    alloc: Global,
    rows: &[FileRow],
    pages: &[Row],
) -> Result<(), Fail> {
    let mut folder = folder(rt, alloc, files(alloc, rows)?)?;
    for (path, query, listing, page) in pages {
        let found = page_of(alloc, &mut folder, path, *query, *listing)?;
        assert_eq!(rt; found.as_slice(), *page);
    }
    Ok(())
}
