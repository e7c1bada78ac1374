//! The formats of access logs by their numbers.

use crate::tests::site;
use std::alloc::Global;
use std::process::Abort;
use std::test::Fail;
use tow_model::{Piece, Template};

const NESTED: &[u8] =
    b"path(/a) -> access-log(one) else { done; access-log(two) }; { access-log(three) } access-log(four)";

/// A text, the number of a log, and its format, which is one literal, or no format.
type Row = (&'static [u8], u32, &'static [u8]);

const ROWS: &[Row] = &[
    (b"", 0, b""),
    (b"done; echo", 0, b""),
    (b"access-log(one)", 0, b"one"),
    (b"access-log(one)", 1, b""),
    (NESTED, 0, b"one"),
    (NESTED, 1, b"two"),
    (NESTED, 2, b"three"),
    (NESTED, 3, b"four"),
    (NESTED, 4, b""),
];

fn expect_literal(rt: &impl Abort, format: &Template, want: &[u8], number: usize) {
    assert_eq!(rt; format.len(), 1, "row {number}");
    assert!(rt;
        matches!(format.get(0), Some(Piece::Literal(bytes)) if bytes.as_slice() == want),
        "row {number}"
    );
}

fn expect(rt: &impl Abort, alloc: Global, row: &Row, number: usize) -> Result<(), Fail> {
    let (text, log, want) = *row;
    let site = site(alloc, text)?;
    assert_eq!(rt; site.has_log(log), !want.is_empty(), "row {number}");
    if site.has_log(log) {
        expect_literal(rt, site.format(log), want, number);
    }
    Ok(())
}

fn expect_all(rt: &impl Abort, alloc: Global, rows: &[Row]) -> Result<(), Fail> {
    for (number, row) in rows.iter().enumerate() {
        expect(rt, alloc, row, number)?;
    }
    Ok(())
}

#[test]
fn each_log_has_its_format(rt: HostRuntime) -> Result<(), Fail> {
    expect_all(&rt, rt.alloc(), ROWS)
}
