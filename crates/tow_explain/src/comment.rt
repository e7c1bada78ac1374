//! What was to be a comment.

ghost use Rattle.std.specs.Prelude.{◌≡◌};
ghost use Rattle.tow_explain.specs.Comments as model;

use crate::line::position;
use crate::script::part;

/// Whether the bytes begin with `#`, `//` or `/*`.
pub fn begins_comment(bytes: &[u8]) -> bool
    ensures { result ≡ model.begins_comment bytes.now }
{
    has_at(bytes, 0, b'#')
        || (has_at(bytes, 0, b'/') && (has_at(bytes, 1, b'/') || has_at(bytes, 1, b'*')))
}

/// Whether this byte stands at the place.
fn has_at(bytes: &[u8], at: usize, byte: u8) -> bool
    ensures { result ≡ model.has_at bytes.now at byte }
{
    at < bytes.len() && bytes[at] == byte
}

/// Whether the line of the place begins as a comment does, before the place.
pub fn is_in_comment(text: &[u8], place: usize) -> bool {
    let (_line, column) = position(text, place);
    let begin = place.saturating_sub(column.saturating_sub(1));
    begins_comment(part(text, begin, place).trim_ascii_start())
}
