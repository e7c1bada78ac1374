//! What begins at a place of a line.

ghost use Rattle.std.specs.Prelude.{◌≡◌, ◌<◌, ◌≤◌, length, Some};
ghost use Rattle.tow_explain.specs.Drawn as model;
ghost use Rattle.tow_explain.specs.Drawn.{cell_size};

use bstr::decode_utf8;
use unicode_width::UnicodeWidthChar;

/// What stands in one place of a line, and is shown as one.
#[derive(Clone, Copy, Debug, PartialEq, Eq)]
pub enum Cell {
    Tab,
    /// A byte of a character that takes no column, or of none.
    Byte,
    /// A character of so many bytes, which takes so many columns.
    Character { size: usize, columns: usize },
}

impl Cell {
    /// How many bytes of the text it takes.
    pub fn size(self) -> usize
        ensures { result ≡ cell_size self }
    {
        match self {
            Cell::Tab | Cell::Byte => 1,
            Cell::Character { size, .. } => size,
        }
    }
}

/// What begins at the front of a text.
#[tactic(auto, using(crate::proofs::Cells::sized), unfolding(crate::specs::Drawn::cell_at))]
pub fn cell_at(text: &[u8]) -> Cell
    requires { 0 < length text.now }
    ensures cell { result ≡ model.cell_at text.now }
    ensures some { 0 < cell_size result }
    ensures within { cell_size result ≤ length text.now }
{
    match decode_utf8(text) {
        (Some(character), size) => cell_with(character, size),
        (None, _size) => Cell::Byte,
    }
}

/// The cell of a character of so many bytes.
fn cell_with(character: char, size: usize) -> Cell
    ensures { result ≡ model.cell_with size (Some character) }
{
    if character == '\t' {
        return Cell::Tab;
    }
    match character.width() {
        None | Some(0) => Cell::Byte,
        Some(columns) => Cell::Character { size, columns },
    }
}
