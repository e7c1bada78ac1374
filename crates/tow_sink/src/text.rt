ghost use Rattle.std.specs.Prelude.{◌≡◌, ◌+◌, ◌-◌, ◌<◌, ◌≤◌, ◌++◌, [], ◌∷◌, false, length, drop};
ghost use Rattle.httparse.specs.Ascii.{crlf_bytes};
ghost use Rattle.std.specs.Fmt.{digit_glyph};
ghost use Rattle.tow_wire.specs.Answers.{last_chunk};
ghost use Rattle.tow_sink.specs.ChunkedFeeding.{size_line};

use std::marker::Model;

// The bytes of the longest text: a line end, the digits of the largest number, and a line end.
const TEXT_LEN: usize = 20;

/// The bytes around chunks that are still to be handed on. They stand at the end of the array.
#[derive(Drop)]
pub struct Text {
    bytes: [u8; TEXT_LEN],
    at: usize,
    ghost within: { at ≤ 20 },
}

impl Model for Text {
    ghost use Rattle.std.specs.Prelude.{ℕ, List, drop};
    ghost use Rattle.std.specs.Coded.{coded_ℕ, coded_list};

    ghost Value = { List ℕ };

    ghost coded = { coded_list coded_ℕ };

    ghost view = { λ t. drop t.at t.bytes };
}

impl Text {
    /// No bytes.
    pub fn empty() -> Text
        ensures { result ≡ [] }
    {
        Text {
            bytes: [0; TEXT_LEN],
            at: TEXT_LEN,
        }
    }

    /// The end of a line.
    pub fn line_end() -> Text
        ensures { result ≡ crlf_bytes }
    {
        let mut text = Text::empty();
        text.put_before(b'\n');
        text.put_before(b'\r');
        text
    }

    /// The last `rest` bytes of a line end, at most both of them, and the first line of a chunk of
    /// this size.
    pub fn size_line(rest: usize, size: usize) -> Text
        ensures { result ≡ drop (2 - rest) crlf_bytes ++ size_line size }
    {
        let mut text = Text::line_end();
        let mut left = size;
        while left >= 16 {
            text.put_before(digit_of(left % 16));
            left /= 16;
        }
        text.put_before(digit_of(left));
        text.put_rest(rest);
        text
    }

    /// The last `rest` bytes of a line end, at most both of them, and the last chunk.
    pub fn last_chunk(rest: usize) -> Text
        ensures { result ≡ drop (2 - rest) crlf_bytes ++ last_chunk }
    {
        let mut text = Text::line_end();
        text.put_before(b'\n');
        text.put_before(b'\r');
        text.put_before(b'0');
        text.put_rest(rest);
        text
    }

    /// How many bytes it has.
    pub fn len(&self) -> usize
        ensures { result ≡ length self.now }
    {
        TEXT_LEN - self.at
    }

    /// Its bytes.
    pub fn as_slice(&self) -> &[u8]
        ensures { result.now ≡ self.now }
    {
        &self.bytes[self.at..]
    }

    /// Drops the first bytes, which are there.
    pub fn take(&mut self, count: usize)
        requires { count ≤ length self.old }
        ensures { self.new ≡ drop count self.old }
    {
        self.at += count;
    }

    // Puts a byte before the others.
    fn put_before(&mut self, byte: u8)
        requires { length self.old < 20 }
        ensures { self.new ≡ byte ∷ self.old }
    {
        self.at -= 1;
        self.bytes[self.at] = byte;
    }

    // Puts the last bytes of a line end before the others.
    fn put_rest(&mut self, rest: usize)
        requires { length self.old ≤ 18 }
        ensures { self.new ≡ drop (2 - rest) crlf_bytes ++ self.old }
    {
        if rest > 0 {
            self.put_before(b'\n');
        }
        if rest > 1 {
            self.put_before(b'\r');
        }
    }
}

// The digit of a number below 16, in lower case.
fn digit_of(number: usize) -> u8
    requires { number < 16 }
    ensures { result ≡ digit_glyph false number }
{
    if number < 10 {
        b'0' + number as u8
    } else {
        b'a' + (number as u8 - 10)
    }
}
