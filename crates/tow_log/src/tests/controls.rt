//! How control bytes are shown, and where a line is cut.

use super::{MOMENT, PRESENT, Pair, exchange, request};
use crate::line;
use std::alloc::Global;
use std::test::Fail;
use tow_model::{Attribute, Bytes, Field, List, NoMemory, Piece};

/// A value of a field, and its line.
const CONTROLS: [Pair; 6] = [
    (b"a\tb", b"a\\x09b"),
    (
        b"\x00\x1f\x20\x7e\x7f\x80\xff",
        b"\\x00\\x1f ~\\x7f\x80\xff",
    ),
    (b"\r\n200", b"\\x0d\\x0a200"),
    (b"\"\\x\"", b"\"\\x\""),
    (b" ", b" "),
    (b"\x0a", b"\\x0a"),
];

/// The line of a field's value, after so many bytes of the format.
fn line_after(alloc: Global, len: usize, value: &[u8]) -> Result<Bytes, NoMemory> {
    let mut bytes = Vec::new(alloc);
    bytes.resize(len, b'\t')?;
    let mut format = List::new(alloc);
    format.push(Piece::Literal(Bytes::from_vec(bytes)))?;
    let name = Bytes::from_slice(alloc, b"x")?;
    format.push(Piece::Value(Attribute::RequestField(name)))?;
    let mut fields = List::new(alloc);
    let name = Bytes::from_slice(alloc, b"X")?;
    let value = Bytes::from_slice(alloc, value)?;
    fields.push(Field { name, value })?;
    let mut request = request(alloc, &PRESENT)?;
    request.fields = fields;
    let exchange = exchange(alloc, &PRESENT)?;
    line(alloc, &format, &request, &exchange, MOMENT)
}

#[test]
fn control_bytes_are_shown(rt: HostRuntime) -> Result<(), Fail> {
    for (i, (value, wanted)) in CONTROLS.iter().enumerate() {
        let shown = line_after(rt.alloc(), 0, value)?;
        assert!(rt; shown.as_slice() == *wanted, "row {i}");
    }
    Ok(())
}

/// How many bytes of a format come first, a value after them, the line's length, and its end.
const CUTS: [(usize, &[u8], usize, &[u8]); 7] = [
    (65_531, b"\x1f", 65_535, b"\t\\x1f"),
    (65_532, b"\x1f", 65_536, b"\t\\x1f"),
    (65_533, b"\x1f", 65_536, b"\t\\x1"),
    (65_535, b"\x1f", 65_536, b"\t\\"),
    (65_535, b"", 65_536, b"\t-"),
    (65_536, b"", 65_536, b"\t"),
    (65_537, b"\x1f", 65_536, b"\t"),
];

#[test]
fn lines_are_cut(rt: HostRuntime) -> Result<(), Fail> {
    let alloc = rt.alloc();
    for (i, (len, value, wanted, end)) in CUTS.iter().enumerate() {
        let shown = line_after(alloc, *len, value)?;
        assert!(rt; shown.len() == *wanted, "row {i}");
        assert!(rt; shown.as_slice().ends_with(end), "row {i}");
    }
    let mut largest = Vec::new(alloc);
    largest.resize(65_536, b'\x01')?;
    let shown = line_after(alloc, 0, &largest)?;
    assert_eq!(rt; shown.len(), 65_536);
    assert!(rt; shown.as_slice().ends_with(b"\\x01"));
    Ok(())
}
