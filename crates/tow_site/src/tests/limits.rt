//! The limits of texts by their numbers.

use crate::tests::site;
use std::alloc::Global;
use std::process::Abort;
use std::test::Fail;
use tow_model::Bound;

const NESTED: &[u8] =
    b"path(/a) -> request-limit(1) else { done; request-limit(2) }; { request-limit(65535) } request-limit(2)";

/// A text, and how many exchanges each of its limits admits at a time.
type Row = (&'static [u8], &'static [u32]);

const ROWS: &[Row] = &[
    (b"", &[]),
    (b"done; echo", &[]),
    (b"request-limit(3)", &[3]),
    (NESTED, &[1, 2, 65_535, 2]),
];

fn expect(rt: &impl Abort, alloc: Global, row: &Row, number: usize) -> Result<(), Fail> {
    let (text, wanted) = *row;
    let site = site(alloc, text)?;
    let limits = site.limits().as_slice();
    assert_eq!(rt; limits.len(), wanted.len(), "row {number}");
    for (limit, most) in limits.iter().zip(wanted.iter()) {
        assert_eq!(rt; *limit, Bound { most: *most }, "row {number}");
    }
    Ok(())
}

fn expect_all(rt: &impl Abort, alloc: Global, rows: &[Row]) -> Result<(), Fail> {
    for (number, row) in rows.iter().enumerate() {
        expect(rt, alloc, row, number)?;
    }
    Ok(())
}

#[test]
fn each_limit_has_its_bound(rt: HostRuntime) -> Result<(), Fail> {
    expect_all(&rt, rt.alloc(), ROWS)
}
