//! Inputs with their framing, and what they come to.

use tow_model::Framing;

/// What an input comes to.
#[derive(Clone, Copy)]
pub enum Comes {
    /// To a content of these bytes.
    To(&'static [u8]),
    Bad,
    TooLong,
    /// To no end so far.
    NotYet,
}

/// A framing, the input from the content's first byte on, what it comes to, and how many bytes are left in the pipe.
pub struct Row {
    pub framing: Framing,
    pub input: &'static [u8],
    pub comes: Comes,
    pub left: usize,
}

pub const ROWS: &[Row] = &[
    // no content
    Row {
        framing: Framing::Empty,
        input: b"",
        comes: Comes::To(b""),
        left: 0,
    },
    Row {
        framing: Framing::Empty,
        input: b"GET /",
        comes: Comes::To(b""),
        left: 5,
    },
    // a length
    Row {
        framing: Framing::Fixed(0),
        input: b"",
        comes: Comes::To(b""),
        left: 0,
    },
    Row {
        framing: Framing::Fixed(0),
        input: b"GET /",
        comes: Comes::To(b""),
        left: 5,
    },
    Row {
        framing: Framing::Fixed(1),
        input: b"",
        comes: Comes::NotYet,
        left: 0,
    },
    Row {
        framing: Framing::Fixed(1),
        input: b"a",
        comes: Comes::To(b"a"),
        left: 0,
    },
    Row {
        framing: Framing::Fixed(5),
        input: b"abcd",
        comes: Comes::NotYet,
        left: 0,
    },
    Row {
        framing: Framing::Fixed(5),
        input: b"abcde",
        comes: Comes::To(b"abcde"),
        left: 0,
    },
    Row {
        framing: Framing::Fixed(5),
        input: b"ab\r\n\xffGET /",
        comes: Comes::To(b"ab\r\n\xff"),
        left: 5,
    },
    Row {
        framing: Framing::Fixed(1_048_576),
        input: b"abc",
        comes: Comes::NotYet,
        left: 0,
    },
    Row {
        framing: Framing::Fixed(1_048_577),
        input: b"",
        comes: Comes::TooLong,
        left: 0,
    },
    Row {
        framing: Framing::Fixed(1_048_577),
        input: b"abc",
        comes: Comes::TooLong,
        left: 3,
    },
    Row {
        framing: Framing::Fixed(18_446_744_073_709_551_615),
        input: b"abc",
        comes: Comes::TooLong,
        left: 3,
    },
    // chunks
    Row {
        framing: Framing::Chunked,
        input: b"",
        comes: Comes::NotYet,
        left: 0,
    },
    Row {
        framing: Framing::Chunked,
        input: b"0\r\n\r\n",
        comes: Comes::To(b""),
        left: 0,
    },
    Row {
        framing: Framing::Chunked,
        input: b"3\r\nabc\r\n2\r\nde\r\n0\r\n\r\n",
        comes: Comes::To(b"abcde"),
        left: 0,
    },
    Row {
        framing: Framing::Chunked,
        input: b"3\r\nabc\r\n0\r\n\r\nGET /",
        comes: Comes::To(b"abc"),
        left: 5,
    },
    Row {
        framing: Framing::Chunked,
        input: b"3;a=\"q;r\"\r\nabc\r\n0;x\r\na: b\r\nc: d\r\n\r\nGET",
        comes: Comes::To(b"abc"),
        left: 3,
    },
    Row {
        framing: Framing::Chunked,
        input: b"3\r\nabc\r\n0\r\n",
        comes: Comes::NotYet,
        left: 0,
    },
    Row {
        framing: Framing::Chunked,
        input: b"3\r\nabc\r\n0\r\na: b\r\n\r",
        comes: Comes::NotYet,
        left: 0,
    },
    // chunks that are bad
    Row {
        framing: Framing::Chunked,
        input: b"x",
        comes: Comes::Bad,
        left: 0,
    },
    Row {
        framing: Framing::Chunked,
        input: b"3\nabc",
        comes: Comes::Bad,
        left: 3,
    },
    Row {
        framing: Framing::Chunked,
        input: b"3\r\nabcd\r\n",
        comes: Comes::Bad,
        left: 2,
    },
    Row {
        framing: Framing::Chunked,
        input: b"3\r\nabc\r\n-1\r\n",
        comes: Comes::Bad,
        left: 3,
    },
    Row {
        framing: Framing::Chunked,
        input: b"0\r\na: b\n\r\n",
        comes: Comes::Bad,
        left: 2,
    },
    // chunks above the limit
    Row {
        framing: Framing::Chunked,
        input: b"100001\r\nab",
        comes: Comes::TooLong,
        left: 2,
    },
    Row {
        framing: Framing::Chunked,
        input: b"3\r\nabc\r\nffffe\r\nab",
        comes: Comes::TooLong,
        left: 2,
    },
    Row {
        framing: Framing::Chunked,
        input: b"100000\r\nab",
        comes: Comes::NotYet,
        left: 0,
    },
];
