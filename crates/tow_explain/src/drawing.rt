//! The two rows of a line: what is shown of it, and what stands under it up to a caret.

ghost use Rattle.std.specs.Prelude.{◌≡◌, ◌++◌, ◌<◌, ◌≤◌, OnOk, length, replicate};
ghost use Rattle.tow_explain.specs.Drawn as model;
ghost use Rattle.tow_explain.specs.Drawn.{cell_size, drawn, drawn_cell};
ghost use Rattle.tow_explain.specs.Drawn.{escaped_byte, shown_cell, under_cell};

use crate::cell::{Cell, cell_at};
use std::alloc::AllocError;

/// Which row of a line is drawn.
#[derive(Clone, Copy, Debug, PartialEq, Eq)]
pub enum Row {
    /// The line, with `\x..` for each byte that is not shown as itself.
    Text,
    /// White space of the same width.
    Under,
}

/// Appends a row of a text.
pub fn put_row(out: &mut Vec<u8>, row: Row, text: &[u8]) -> Result<(), AllocError>
    ensures { OnOk result (out.new.items ≡ out.old.items ++ drawn row text.now) }
{
    let mut at = 0;
    'cells: while at < text.len() {
        let (_before, rest) = text.split_at(at);
        let cell = cell_at(rest);
        put_cell(out, row, cell, rest)?;
        at += cell.size();
    }
    Ok(())
}

/// Appends a row of the cell at the front of a text.
fn put_cell(out: &mut Vec<u8>, row: Row, cell: Cell, text: &[u8]) -> Result<(), AllocError>
    requires some { 0 < length text.now }
    requires within { cell_size cell ≤ length text.now }
    ensures { OnOk result (out.new.items ≡ out.old.items ++ drawn_cell row cell text.now) }
{
    match row {
        Row::Text => put_shown(out, cell, text),
        Row::Under => put_under(out, cell),
    }
}

/// Appends what is shown of the cell at the front of a text.
fn put_shown(out: &mut Vec<u8>, cell: Cell, text: &[u8]) -> Result<(), AllocError>
    requires some { 0 < length text.now }
    requires within { cell_size cell ≤ length text.now }
    ensures { OnOk result (out.new.items ≡ out.old.items ++ shown_cell cell text.now) }
{
    match cell {
        Cell::Tab => {
            out.push(b'\t')?;
        }
        Cell::Byte => put_escaped(out, text[0])?,
        Cell::Character { size, .. } => out.extend_from_slice(&text[..size])?,
    }
    Ok(())
}

/// Appends what stands under a cell.
fn put_under(out: &mut Vec<u8>, cell: Cell) -> Result<(), AllocError>
    ensures { OnOk result (out.new.items ≡ out.old.items ++ under_cell cell) }
{
    match cell {
        Cell::Tab => {
            out.push(b'\t')?;
        }
        Cell::Byte => put_spaces(out, 4)?,
        Cell::Character { columns, .. } => put_spaces(out, columns)?,
    }
    Ok(())
}

/// Appends a byte as `\x` and two digits.
pub fn put_escaped(out: &mut Vec<u8>, byte: u8) -> Result<(), AllocError>
    ensures { OnOk result (out.new.items ≡ out.old.items ++ escaped_byte byte) }
{
    out.extend_from_slice(b"\\x")?;
    out.push(hex_digit(byte / 16))?;
    out.push(hex_digit(byte % 16))?;
    Ok(())
}

/// The digit of a number below 16.
fn hex_digit(number: u8) -> u8
    requires { number < 16 }
    ensures { result ≡ model.hex_digit number }
{
    if number < 10 {
        48 + number
    } else {
        87 + number
    }
}

/// Appends so many spaces.
pub fn put_spaces(out: &mut Vec<u8>, count: usize) -> Result<(), AllocError>
    ensures { OnOk result (out.new.items ≡ out.old.items ++ replicate count 32) }
{
    'spaces: for _space in 0..count {
        out.push(b' ')?;
    }
    Ok(())
}
