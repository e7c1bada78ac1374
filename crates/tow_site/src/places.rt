//! Lines and columns of a text.

ghost use Rattle.std.specs.Prelude.{◌≡◌, ◌≤◌, ◌+◌, ◌==◌, not, min, length, count_by, take_while, reverse};
ghost use Rattle.tow_site.specs.Compiled.{fault_of};

use crate::fault::Fault;
use tow_language::Kind;

/// The fault of this kind at a place of the text, with its line and column.
pub fn fault_at(text: &[u8], kind: Kind, place: usize) -> Fault
    requires { min place (length text.now) ≤ 65536 }
    ensures { result ≡ fault_of text.now kind place }
{
    let front = &text[..place.min(text.len())];
    Fault::Text {
        kind,
        line: line_behind(front),
        column: column_behind(front),
    }
}

/// The line, from 1, on which these bytes end.
fn line_behind(front: &[u8]) -> u32
    requires { length front.now ≤ 65536 }
    ensures { result ≡ 1 + count_by (λ b. b == 10) front.now }
{
    let mut line = 1;
    'bytes: for byte in front {
        if *byte == b'\n' {
            line += 1;
        }
    }
    line
}

/// The column, from 1, in bytes, at which these bytes end.
fn column_behind(front: &[u8]) -> u32
    requires { length front.now ≤ 65536 }
    ensures { result ≡ 1 + length (take_while (λ b. not (b == 10)) (reverse front.now)) }
{
    let mut column = 1;
    'bytes: for byte in front {
        column = if *byte == b'\n' { 1 } else { column + 1 };
    }
    column
}
