//! The line before a chunk that tells its size (RFC 9112, section 7.1).

ghost use Rattle.std.specs.Prelude.{◌≡◌, ◌<◌, ◌≤◌, ◌++◌, false};
ghost use Rattle.std.specs.Fmt.{digits, digit_glyph};
ghost use Rattle.httparse.specs.Ascii.{crlf_bytes};
ghost use Rattle.tow_model.specs.declared.limits.TheConstants.{BLOCK_LEN};

use std::marker::Model;

/// A size in four digits with its line end, of which the line begins at `from`. Contracts see the line.
#[derive(Drop)]
pub(crate) struct SizeLine {
    bytes: [u8; 6],
    from: usize,
}

impl Model for SizeLine {
    ghost use Rattle.std.specs.Prelude.{List, ℕ, ◌<◌, drop};

    ghost Value = { List ℕ };

    ghost view = { λ line. drop line.from line.bytes };

    ghost invariant = { λ line. line.from < 4 };
}

impl SizeLine {
    /// The line of a size from 1 to 16,384, in lower case hexadecimal. Takes no memory.
    pub(crate) fn new(size: usize) -> SizeLine
        requires { size ≤ BLOCK_LEN }
        ensures { result ≡ digits 16 false size ++ crlf_bytes }
    {
        SizeLine {
            bytes: [
                digit(size / 4096),
                digit(size / 256 % 16),
                digit(size / 16 % 16),
                digit(size % 16),
                b'\r',
                b'\n',
            ],
            from: zeros(size),
        }
    }

    pub(crate) fn as_slice(&self) -> &[u8]
        ensures { result.now ≡ self.now }
    {
        &self.bytes[self.from..]
    }
}

/// The digit of a number from 0 to 15.
fn digit(value: usize) -> u8
    requires { value < 16 }
    ensures { result ≡ digit_glyph false value }
{
    if value < 10 {
        b'0' + value as u8
    } else {
        b'a' + (value as u8 - 10)
    }
}

/// How many of the four digits are zeros at the front, but for the last one.
fn zeros(size: usize) -> usize
    ensures few { result < 4 }
    ensures three { size < 16 → result ≡ 3 }
    ensures two { 16 ≤ size → size < 256 → result ≡ 2 }
    ensures one { 256 ≤ size → size < 4096 → result ≡ 1 }
    ensures none { 4096 ≤ size → result ≡ 0 }
{
    if size < 16 {
        3
    } else if size < 256 {
        2
    } else if size < 4096 {
        1
    } else {
        0
    }
}
