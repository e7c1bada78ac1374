//! Rows written by hand, a long table, a long path, and many small ones that a plain loop over the rows is compared with.

ghost use Rattle.std.specs.Prelude.{◌<◌};

use crate::{Bytes, List, Matcher, Row};
use std::alloc::{AllocError, Global};
use std::process::Abort;
use std::test::Fail;

/// The tests of rows: a text, and whether it is a prefix.
type Rows<'a> = &'a [(&'a str, bool)];

fn list_of(alloc: Global, rows: Rows<'_>) -> Result<List<Row>, AllocError> {
    let mut list = List::new(alloc);
    for (path, prefix) in rows {
        list.push(Row {
            path: Bytes::from_slice(alloc, path.as_bytes())?,
            prefix: *prefix,
        })?;
    }
    Ok(list)
}

fn made(alloc: Global, rows: List<Row>) -> Result<Matcher, Fail> {
    Ok(Matcher::new(alloc, rows)?)
}

/// Rows, a path, the number from which a row is sought, and the row that is wanted.
type Case<'a> = (Rows<'a>, &'a str, usize, Option<usize>);

fn expect_all(rt: &impl Abort, alloc: Global, cases: &[Case<'_>]) -> Result<(), Fail> {
    for (i, (rows, path, from, wanted)) in cases.iter().enumerate() {
        let matcher = made(alloc, list_of(alloc, rows)?)?;
        let found = matcher.first(path.as_bytes(), *from);
        assert!(rt; found == *wanted, "case {i}");
    }
    Ok(())
}

const NONE: Rows<'static> = &[];

const ONE_PATH: Rows<'static> = &[("/a", false)];

const ONE_PREFIX: Rows<'static> = &[("/foo", true)];

const EMPTY_PREFIX: Rows<'static> = &[("", true)];

const ROOT_PREFIX: Rows<'static> = &[("/", true)];

const EQUAL: Rows<'static> = &[
    ("/a", false),
    ("/b", true),
    ("/a", false),
    ("/b", true),
    ("/a", false),
];

const LONGER_LATER: Rows<'static> = &[("/a", true), ("/a/b", true), ("/a/b/c", false)];

const LONGER_EARLIER: Rows<'static> = &[
    ("/a/b/c", false),
    ("/a/b", true),
    ("/a", true),
    ("", true),
];

const BOTH_KINDS: Rows<'static> = &[("/a", true), ("/a", false), ("/a", true)];

const UTF8: Rows<'static> = &[
    ("/grün", false),
    ("/日本", true),
    ("/gr\u{75}\u{308}n", false),
];

const ODD_BYTES: Rows<'static> = &[("/a.", true), ("/a/", true), ("/a0", true), ("a", true)];

#[test]
fn finds_rows_written_by_hand(rt: HostRuntime) -> Result<(), Fail> {
    let cases: [Case<'_>; 62] = [
        (NONE, "", 0, None),
        (NONE, "/a", 0, None),
        (ONE_PATH, "/a", 0, Some(0)),
        (ONE_PATH, "/a", 1, None),
        (ONE_PATH, "/a", usize::MAX, None),
        (ONE_PATH, "/a/", 0, None),
        (ONE_PATH, "/a/b", 0, None),
        (ONE_PATH, "/", 0, None),
        (ONE_PATH, "", 0, None),
        (ONE_PREFIX, "/foo", 0, Some(0)),
        (ONE_PREFIX, "/foo/", 0, Some(0)),
        (ONE_PREFIX, "/foo/bar", 0, Some(0)),
        (ONE_PREFIX, "/foobar", 0, None),
        (ONE_PREFIX, "/foobar/x", 0, None),
        (ONE_PREFIX, "/fo", 0, None),
        (ONE_PREFIX, "/", 0, None),
        (ONE_PREFIX, "x/foo", 0, None),
        (ONE_PREFIX, "/foo//", 0, Some(0)),
        (ONE_PREFIX, "/foo/bar", 1, None),
        (EMPTY_PREFIX, "", 0, Some(0)),
        (EMPTY_PREFIX, "/", 0, Some(0)),
        (EMPTY_PREFIX, "/a/b", 0, Some(0)),
        (EMPTY_PREFIX, "a/b", 0, None),
        (EMPTY_PREFIX, "a", 0, None),
        (ROOT_PREFIX, "/", 0, Some(0)),
        (ROOT_PREFIX, "/a", 0, None),
        (ROOT_PREFIX, "//a", 0, Some(0)),
        (EQUAL, "/a", 0, Some(0)),
        (EQUAL, "/a", 1, Some(2)),
        (EQUAL, "/a", 2, Some(2)),
        (EQUAL, "/a", 3, Some(4)),
        (EQUAL, "/a", 4, Some(4)),
        (EQUAL, "/a", 5, None),
        (EQUAL, "/b/c", 0, Some(1)),
        (EQUAL, "/b/c", 1, Some(1)),
        (EQUAL, "/b/c", 2, Some(3)),
        (EQUAL, "/b/c", 4, None),
        (LONGER_LATER, "/a/b/c", 0, Some(0)),
        (LONGER_LATER, "/a/b/c", 1, Some(1)),
        (LONGER_LATER, "/a/b/c", 2, Some(2)),
        (LONGER_LATER, "/a/b/c/", 2, None),
        (LONGER_EARLIER, "/a/b/c", 0, Some(0)),
        (LONGER_EARLIER, "/a/b/c", 1, Some(1)),
        (LONGER_EARLIER, "/a/b/c", 2, Some(2)),
        (LONGER_EARLIER, "/a/b/c", 3, Some(3)),
        (LONGER_EARLIER, "/a/b/c", 4, None),
        (LONGER_EARLIER, "/a/c", 0, Some(2)),
        (LONGER_EARLIER, "/c", 0, Some(3)),
        (BOTH_KINDS, "/a", 0, Some(0)),
        (BOTH_KINDS, "/a", 1, Some(1)),
        (BOTH_KINDS, "/a", 2, Some(2)),
        (BOTH_KINDS, "/a/", 1, Some(2)),
        (UTF8, "/grün", 0, Some(0)),
        (UTF8, "/gr\u{75}\u{308}n", 0, Some(2)),
        (UTF8, "/日本/語", 0, Some(1)),
        (UTF8, "/日", 0, None),
        (ODD_BYTES, "/a./b", 0, Some(0)),
        (ODD_BYTES, "/a/", 0, Some(1)),
        (ODD_BYTES, "/a//", 0, Some(1)),
        (ODD_BYTES, "/a/b", 0, None),
        (ODD_BYTES, "/a0/", 0, Some(2)),
        (ODD_BYTES, "a/b", 0, Some(3)),
    ];
    expect_all(&rt, rt.alloc(), cases.as_slice())
}

/// `/a0` to `/a999`, and then the prefix `/a7`.
fn thousand(alloc: Global) -> Result<List<Row>, AllocError> {
    let mut rows = List::new(alloc);
    for n in 0..1_000u32 {
        let path = format!(in alloc; "/a{n}")?;
        rows.push(Row {
            path: Bytes::from_slice(alloc, path.as_bytes())?,
            prefix: false,
        })?;
    }
    rows.push(Row {
        path: Bytes::from_slice(alloc, b"/a7")?,
        prefix: true,
    })?;
    Ok(rows)
}

#[test]
fn finds_each_of_a_thousand(rt: HostRuntime) -> Result<(), Fail> {
    let alloc = rt.alloc();
    let matcher = made(alloc, thousand(alloc)?)?;
    for n in 0..1_000usize {
        let path = format!(in alloc; "/a{n}")?;
        let bytes = path.as_bytes();
        assert!(rt; matcher.first(bytes, 0) == Some(n), "{path}");
        assert!(rt; matcher.first(bytes, n) == Some(n), "{path} from itself");
        let behind = if n == 7 { Some(1_000) } else { None };
        assert!(rt;
            matcher.first(bytes, n + 1) == behind,
            "{path} from the next"
        );
    }
    assert_eq!(rt; matcher.first(b"/a7/x", 0), Some(1_000));
    assert_eq!(rt; matcher.first(b"/a70/x", 0), None);
    assert_eq!(rt; matcher.first(b"/a1000", 0), None);
    Ok(())
}

#[test]
fn finds_rows_of_long_paths(rt: HostRuntime) -> Result<(), Fail> {
    let alloc = rt.alloc();
    let slashes = vec![in alloc; b'/'; 60_000]?;
    let mut rows = list_of(alloc, &[("/a", true), ("///", true), ("", true)])?;
    rows.push(Row {
        path: Bytes::from_slice(alloc, slashes.as_slice())?,
        prefix: false,
    })?;
    let matcher = made(alloc, rows)?;
    assert_eq!(rt; matcher.first(slashes.as_slice(), 0), Some(1));
    assert_eq!(rt; matcher.first(slashes.as_slice(), 2), Some(2));
    assert_eq!(rt; matcher.first(slashes.as_slice(), 3), Some(3));
    assert_eq!(rt; matcher.first(slashes.as_slice(), 4), None);
    assert_eq!(rt; matcher.first(&slashes.as_slice()[1..], 3), None);
    let letters = vec![in alloc; b'a'; 60_000]?;
    assert_eq!(rt; matcher.first(letters.as_slice(), 0), None);
    Ok(())
}

/// Numbers that are the same in each run.
#[derive(Drop)]
struct Dice(u32);

impl Dice {
    /// A number below the count.
    fn roll(&mut self, count: u32) -> u32
        requires { 0 < count }
        ensures { result < count }
    {
        self.0 = self.0.wrapping_mul(1_664_525).wrapping_add(1_013_904_223);
        (self.0 >> 8) % count
    }

    /// A text of at most five of the bytes `/` and `a`.
    fn text(&mut self, alloc: Global) -> Result<Vec<u8>, AllocError> {
        let mut text = Vec::new(alloc);
        for _ in 0..self.roll(6) {
            text.push(if self.roll(2) == 0 { b'/' } else { b'a' })?;
        }
        Ok(text)
    }

    fn rows(&mut self, alloc: Global) -> Result<List<Row>, AllocError> {
        let mut rows = List::new(alloc);
        for _ in 0..self.roll(12) {
            rows.push(Row {
                path: Bytes::from_vec(self.text(alloc)?),
                prefix: self.roll(2) == 0,
            })?;
        }
        Ok(rows)
    }
}

fn lies_under(path: &[u8], prefix: &[u8]) -> bool {
    match path.strip_prefix(prefix) {
        Some(rest) => rest.is_empty() || rest.starts_with(b"/"),
        None => false,
    }
}

/// What a loop over the rows finds.
fn looped(rows: &[(Vec<u8>, bool)], path: &[u8], from: usize) -> Option<usize> {
    for (n, (text, prefix)) in (0usize..).zip(rows) {
        let holds = if *prefix {
            lies_under(path, text.as_slice())
        } else {
            text.as_slice() == path
        };
        if n >= from && holds {
            return Some(n);
        }
    }
    None
}

/// The rows as a loop reads them.
fn copied(alloc: Global, rows: &[Row]) -> Result<Vec<(Vec<u8>, bool)>, AllocError> {
    let mut copies = Vec::new(alloc);
    for row in rows {
        copies.push((Vec::from_slice(alloc, row.path.as_slice())?, row.prefix))?;
    }
    Ok(copies)
}

#[test]
fn agrees_with_a_loop_over_the_rows(rt: HostRuntime) -> Result<(), Fail> {
    let alloc = rt.alloc();
    let mut dice = Dice(7);
    let mut found = 0u32;
    for i in 0..200u32 {
        let rows = dice.rows(alloc)?;
        let copies = copied(alloc, rows.as_slice())?;
        let matcher = made(alloc, rows)?;
        let path = dice.text(alloc)?;
        for from in 0..13usize {
            let wanted = looped(copies.as_slice(), path.as_slice(), from);
            assert!(rt;
                matcher.first(path.as_slice(), from) == wanted,
                "list {i} from {from}"
            );
            if wanted.is_some() {
                found = found.saturating_add(1);
            }
        }
    }
    assert!(rt; found > 300, "{found} found");
    Ok(())
}
