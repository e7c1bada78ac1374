//! The line of a text.

ghost use Rattle.std.specs.Prelude.{◌≡◌, ◌-◌, ◌≤◌, ◌+◌, ◌==◌, not, length, count_by, take_while, reverse};
ghost use Rattle.tow_language.specs.Fault.{column_of, line_of};
ghost use Rattle.tow_explain.specs.Lines as model;

use tow_text::{after, before};

/// What follows the first so many line ends, or nothing if there are fewer. Takes no memory.
pub fn after_lines(text: &[u8], count: usize) -> &[u8]
    ensures { result.now ≡ model.after_lines count text.now }
{
    let mut rest = text;
    'lines: for _line in 0..count {
        match after(b'\n', rest) {
            Some(more) => rest = more,
            None => return &[],
        }
    }
    rest
}

/// The line of this number, from 1, without its line end. Takes no memory.
pub fn line_text(text: &[u8], line: usize) -> &[u8]
    ensures { result.now ≡ model.line_text text.now line }
{
    without_return(before(b'\n', after_lines(text, line.saturating_sub(1))))
}

/// The line without the CR of its line end.
fn without_return(line: &[u8]) -> &[u8]
    ensures { result.now ≡ model.without_return line.now }
{
    if !line.is_empty() && line[line.len() - 1] == b'\r' {
        &line[..line.len() - 1]
    } else {
        line
    }
}

/// The offset of this line and column, which count from 1, or the length of the text if it is less.
/// Takes no memory.
pub fn place_of(text: &[u8], line: usize, column: usize) -> usize
    ensures { result ≤ length text.now }
{
    let rest = after_lines(text, line.saturating_sub(1));
    let start = text.len().saturating_sub(rest.len());
    start
        .saturating_add(column.saturating_sub(1))
        .min(text.len())
}

/// The line and the column, which count from 1, of a place. Takes no memory.
pub fn position(text: &[u8], place: usize) -> (usize, usize)
    ensures line { result.0 ≡ line_of text.now place }
    ensures column { result.1 ≡ column_of text.now place }
{
    let front = &text[..place.min(text.len())];
    (line_behind(front), column_behind(front))
}

/// The line, from 1, on which these bytes end.
fn line_behind(front: &[u8]) -> usize
    ensures { result ≡ 1 + count_by (λ b. b == 10) front.now }
{
    let mut line = 1;
    'bytes: for byte in front {
        if *byte == b'\n' {
            line += 1;
        }
    }
    line
}

/// The column, from 1, in bytes, at which these bytes end.
fn column_behind(front: &[u8]) -> usize
    ensures { result ≡ 1 + length (take_while (λ b. not (b == 10)) (reverse front.now)) }
{
    let mut column = 1;
    'bytes: for byte in front {
        column = if *byte == b'\n' { 1 } else { column + 1 };
    }
    column
}
