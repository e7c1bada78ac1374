ghost use Rattle.std.specs.Prelude.{◌≡◌, ◌<◌};
ghost use Rattle.tow_source.specs.Places as places;

use crate::place::{MAX_SIZE_DIGITS, Place};
use httparse::parse_hex_digit;
use tow_model::limits::{MAX_CHUNK_LINE_LEN, MAX_CONTENT_LEN, MAX_TRAILER_LEN};

/// After the first byte of a size.
pub fn first_digit(byte: u8) -> Place
    ensures { result ≡ places.first_digit byte }
{
    match parse_hex_digit(byte) {
        Some(size) => Place::Digits { len: 1, size },
        None => Place::Bad,
    }
}

/// After a byte that follows a digit of a size.
pub fn next_digit(len: usize, size: u64, byte: u8) -> Place
    ensures { result ≡ places.next_digit len size byte }
{
    match parse_hex_digit(byte) {
        Some(digit) if len < MAX_SIZE_DIGITS => Place::Digits {
            len: len + 1,
            size: grown_size(size, digit),
        },
        Some(_) => Place::Bad,
        None => after_digits(len, size, byte),
    }
}

// A size above the limit stays as it is, since more digits leave it above.
fn grown_size(size: u64, digit: u64) -> u64
    requires { digit < 16 }
    ensures { result ≡ places.grown_size size digit }
{
    if size > MAX_CONTENT_LEN {
        size
    } else {
        size * 16 + digit
    }
}

/// After a byte that follows the digits of a size and is none.
pub fn after_digits(len: usize, size: u64, byte: u8) -> Place
    ensures { result ≡ places.after_digits len size byte }
{
    if byte == b'\r' {
        Place::SizeLf { size }
    } else if len >= MAX_CHUNK_LINE_LEN - 2 {
        Place::Bad
    } else if byte == b';' {
        Place::Extension { len: len + 1, size }
    } else if byte == b' ' || byte == b'\t' {
        Place::Padding { len: len + 1, size }
    } else {
        Place::Bad
    }
}

/// After a byte of an extension.
pub fn in_extension(len: usize, size: u64, byte: u8) -> Place
    ensures { result ≡ places.in_extension len size byte }
{
    if byte == b'\r' {
        Place::SizeLf { size }
    } else if byte == b'\n' || len >= MAX_CHUNK_LINE_LEN - 2 {
        Place::Bad
    } else {
        Place::Extension { len: len + 1, size }
    }
}

/// After the byte that ends a size line, where the chunks have room for so many bytes more.
pub fn after_size_line(room: u64, size: u64, byte: u8) -> Place
    ensures { result ≡ places.after_size_line room size byte }
{
    if byte != b'\n' {
        Place::Bad
    } else if size > room {
        Place::TooLong
    } else if size == 0 {
        Place::TrailerStart { len: 0 }
    } else {
        Place::Data { left: size }
    }
}

/// After a byte of data, or after the one that follows the data.
pub fn after_data(left: u64, byte: u8) -> Place
    ensures { result ≡ places.after_data left byte }
{
    if left > 0 {
        Place::Data { left: left - 1 }
    } else if byte == b'\r' {
        Place::DataLf
    } else {
        Place::Bad
    }
}

/// The place `next` after a LF.
pub fn at_line_feed(next: Place, byte: u8) -> Place
    ensures { result ≡ places.at_line_feed next byte }
{
    if byte == b'\n' { next } else { Place::Bad }
}

/// After the first byte of a trailer line.
pub fn trailer_start(len: usize, byte: u8) -> Place
    ensures { result ≡ places.trailer_start len byte }
{
    if byte == b'\r' {
        Place::LastLf
    } else if byte == b'\n' || len >= MAX_TRAILER_LEN - 4 {
        Place::Bad
    } else {
        Place::TrailerText { len: len + 3 }
    }
}

/// After a further byte of a trailer line.
pub fn trailer_text(len: usize, byte: u8) -> Place
    ensures { result ≡ places.trailer_text len byte }
{
    if byte == b'\r' {
        Place::TrailerLf { len }
    } else if byte == b'\n' || len >= MAX_TRAILER_LEN - 2 {
        Place::Bad
    } else {
        Place::TrailerText { len: len + 1 }
    }
}
