//! Names with bytes that an address or HTML shows otherwise.

use super::folders::{file, folder, page_of};
use std::alloc::{AllocError, Global};
use std::process::Abort;
use std::test::Fail;

/// A name, the name in an address, and the name in HTML.
type Row = (&'static [u8], &'static [u8], &'static [u8]);

const ROWS: &[Row] = &[
    (b"a b", b"a%20b", b"a b"),
    (b" ", b"%20", b" "),
    (b"  a", b"%20%20a", b"  a"),
    (b"a ", b"a%20", b"a "),
    (b"%", b"%25", b"%"),
    (b"%20", b"%2520", b"%20"),
    (b"a%2Fb", b"a%252Fb", b"a%2Fb"),
    (b"100%", b"100%25", b"100%"),
    (b"\"", b"%22", b"&quot;"),
    (b"\"q\"", b"%22q%22", b"&quot;q&quot;"),
    (b"'", b"%27", b"'"),
    (b"it's", b"it%27s", b"it's"),
    (b"<", b"%3C", b"&lt;"),
    (b"<b>", b"%3Cb%3E", b"&lt;b&gt;"),
    (b"a<b", b"a%3Cb", b"a&lt;b"),
    (b"a>b", b"a%3Eb", b"a&gt;b"),
    (b"&", b"%26", b"&amp;"),
    (b"&amp;", b"%26amp%3B", b"&amp;amp;"),
    (b"a&b=c", b"a%26b%3Dc", b"a&amp;b=c"),
    (b"?", b"%3F", b"?"),
    (b"a?b", b"a%3Fb", b"a?b"),
    (b"#", b"%23", b"#"),
    (b"a#b", b"a%23b", b"a#b"),
    (b"\xc3\xa4", b"%C3%A4", b"\xc3\xa4"),
    (
        b"\xc3\xa4\xc3\xb6\xc3\xbc",
        b"%C3%A4%C3%B6%C3%BC",
        b"\xc3\xa4\xc3\xb6\xc3\xbc",
    ),
    (
        b"\xe6\x97\xa5\xe6\x9c\xac",
        b"%E6%97%A5%E6%9C%AC",
        b"\xe6\x97\xa5\xe6\x9c\xac",
    ),
    (b"\xf0\x9f\x98\x80", b"%F0%9F%98%80", b"\xf0\x9f\x98\x80"),
    (b"a+b", b"a%2Bb", b"a+b"),
    (b"a;b", b"a%3Bb", b"a;b"),
    (b"a,b", b"a%2Cb", b"a,b"),
    (b"a:b", b"a%3Ab", b"a:b"),
    (b"@", b"%40", b"@"),
    (b"$", b"%24", b"$"),
    (b"!", b"%21", b"!"),
    (b"(a)", b"%28a%29", b"(a)"),
    (b"*", b"%2A", b"*"),
    (b"[1]", b"%5B1%5D", b"[1]"),
    (b"{x}", b"%7Bx%7D", b"{x}"),
    (b"\\", b"%5C", b"\\"),
    (b"|^`~-._Z9", b"%7C%5E%60~-._Z9", b"|^`~-._Z9"),
];

fn joined(alloc: Global, parts: &[&[u8]]) -> Result<Vec<u8>, AllocError> {
    let mut out = Vec::new(alloc);
    for part in parts {
        out.extend_from_slice(part)?;
    }
    Ok(out)
}

fn expect_named(rt: &impl Abort, alloc: Global, row: &Row) -> Result<(), Fail> {
    let (name, address, html) = row;
    let path = joined(alloc, &[b"/d/", name, b"/f"])?;
    let mut files = Vec::new(alloc);
    files.push(file(alloc, &path, 5, b"abc")?)?;
    let mut folder = folder(rt, alloc, files)?;
    let served = page_of(alloc, &mut folder, &path, None, true)?;
    assert_eq!(rt; served, joined(alloc, &[&path, b" 3 5"])?);
    let directory = joined(alloc, &[b"/d/", name])?;
    let moved = page_of(alloc, &mut folder, &directory, None, true)?;
    assert_eq!(rt; moved, joined(alloc, &[b"to /d/", address, b"/"])?);
    let listed = page_of(alloc, &mut folder, b"/d/", None, true)?;
    let page = joined(
        alloc,
        &[
            b"<!DOCTYPE html>\n<html><head><title>Index of /d/</title></head><body>\n<ul>\n",
            b"<li><a href=\"",
            address,
            b"/\">",
            html,
            b"/</a></li>\n</ul>\n</body></html>\n",
        ],
    )?;
    assert_eq!(rt; listed, page);
    Ok(())
}

fn expect_all(rt: &impl Abort, alloc: Global, rows: &[Row]) -> Result<(), Fail> {
    for row in rows {
        expect_named(rt, alloc, row)?;
    }
    Ok(())
}

#[test]
fn names_are_shown_as_addresses_and_in_html(rt: HostRuntime) -> Result<(), Fail> {
    expect_all(&rt, rt.alloc(), ROWS)
}
