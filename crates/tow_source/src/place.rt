ghost use Rattle.std.specs.Prelude.{◌≡◌};
ghost use Rattle.tow_source.specs.Places.{is_framing, place_after, room_after};

use crate::step::{
    after_data, after_digits, after_size_line, at_line_feed, first_digit, in_extension, next_digit,
    trailer_start, trailer_text,
};

/// The digits of the longest size.
pub const MAX_SIZE_DIGITS: usize = 15;

/// Where in a chunked content the next byte stands (RFC 9112, section 7.1). The `len` of a size line
/// counts its bytes so far. That of a trailer counts the bytes of all its lines so far, with the end
/// of the line under way. A `size` is what the digits say, or any number above the limit if they say
/// one.
#[derive(Clone, Copy, Debug)]
pub enum Place {
    /// At the first digit of a size.
    SizeStart,
    /// After a digit of a size.
    Digits { len: usize, size: u64 },
    /// After a space or tab that follows the digits.
    Padding { len: usize, size: u64 },
    /// In an extension.
    Extension { len: usize, size: u64 },
    /// At the LF of the line with this size.
    SizeLf { size: u64 },
    /// In the data of a chunk, of which so many bytes are to come; at the CR after them if none is.
    Data { left: u64 },
    /// At the LF after the data.
    DataLf,
    /// At the first byte of a trailer line, or at the CR of the empty one.
    TrailerStart { len: usize },
    /// In a trailer line.
    TrailerText { len: usize },
    /// At the LF of a trailer line.
    TrailerLf { len: usize },
    /// At the LF of the empty line, the last byte of the content.
    LastLf,
    /// After the whole content.
    Ended,
    /// After a byte that fits nowhere.
    Bad,
    /// After a line whose size is too much.
    TooLong,
}

impl Place {
    /// The place after one more byte, where the chunks have room for so many bytes more.
    pub fn after(self, room: u64, byte: u8) -> Place
        ensures { result ≡ place_after room self byte }
    {
        match self {
            Place::SizeStart => first_digit(byte),
            Place::Digits { len, size } => next_digit(len, size, byte),
            Place::Padding { len, size } => after_digits(len, size, byte),
            Place::Extension { len, size } => in_extension(len, size, byte),
            Place::SizeLf { size } => after_size_line(room, size, byte),
            Place::Data { left } => after_data(left, byte),
            Place::DataLf => at_line_feed(Place::SizeStart, byte),
            Place::TrailerStart { len } => trailer_start(len, byte),
            Place::TrailerText { len } => trailer_text(len, byte),
            Place::TrailerLf { len } => at_line_feed(Place::TrailerStart { len }, byte),
            Place::LastLf => at_line_feed(Place::Ended, byte),
            Place::Ended | Place::Bad | Place::TooLong => self,
        }
    }

    /// The room that the chunks have after one more byte.
    pub fn room_after(self, room: u64) -> u64
        ensures { result ≡ room_after room self }
    {
        if let Place::SizeLf { size } = self {
            return room.saturating_sub(size);
        }
        room
    }

    /// Whether the next byte is none of the content's own, but one around it.
    pub fn is_framing(self) -> bool
        ensures { result ≡ is_framing self }
    {
        match self {
            Place::Data { left } => left == 0,
            Place::Ended | Place::Bad | Place::TooLong => false,
            _ => true,
        }
    }
}
