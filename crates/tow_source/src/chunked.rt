use crate::moving::move_bytes;
use crate::place::Place;
use crate::{Body, BodySource};
use tow_model::limits::MAX_CONTENT_LEN;
use tow_pipe::Pipe;

/// The source of a content in chunks: the bytes of all chunks, without what stands around them
/// (RFC 9112, section 7.1). It moves the data in runs, and takes no memory.
#[derive(Clone, Copy, Debug)]
pub struct ChunkedSource {
    place: Place,
    // How many bytes further chunks may have.
    room: u64,
}

impl ChunkedSource {
    ghost use Rattle.std.specs.Prelude.{◌≡◌};
    ghost use Rattle.tow_model.specs.declared.request.Framing.TheVariants.{Chunked};
    ghost use Rattle.tow_source.specs.Readings.{unread};
    ghost use Rattle.tow_source.specs.ChunkedReading.{Frames, FramesPipe, ReadsChunked, step_of};

    /// A source before its first byte.
    pub fn new() -> ChunkedSource
        ensures { ReadsChunked result (unread Chunked) }
    {
        ChunkedSource {
            place: Place::SizeStart,
            room: MAX_CONTENT_LEN,
        }
    }

    // Goes on by one byte.
    fn step(&mut self, byte: u8)
        ensures { self.new ≡ step_of self.old byte }
    {
        let room = self.place.room_after(self.room);
        self.place = self.place.after(self.room, byte);
        self.room = room;
    }

    // Goes on over the first bytes as far as they are around the content, and answers how many.
    fn step_over(&mut self, bytes: &[u8]) -> usize
        ensures { Frames result bytes.now self.old self.new }
    {
        let mut count = 0;
        while count < bytes.len() && self.place.is_framing() {
            self.step(bytes[count]);
            count += 1;
        }
        count
    }

    // Takes the bytes around the content, up to its next byte.
    fn take_framing(&mut self, from: &mut Pipe)
        ensures { FramesPipe from.old from.new self.old self.new }
    {
        if !self.place.is_framing() {
            return;
        }
        let bytes: &[u8] = from.view();
        let count = self.step_over(bytes);
        from.take(count);
    }
}

impl BodySource for ChunkedSource {
    ghost use Rattle.tow_source.specs.ChunkedReading.{ReadsChunked};

    ghost reads = { ReadsChunked };

    fn read(&mut self, from: &mut Pipe, to: &mut [u8]) -> Body {
        self.take_framing(from);
        match self.place {
            Place::Ended => Body::End,
            Place::Bad => Body::Bad,
            Place::TooLong => Body::TooLong,
            Place::Data { left } => {
                let count = move_bytes(from, to, left);
                if count == 0 {
                    return Body::NotYet;
                }
                self.place = Place::Data {
                    left: left - count as u64,
                };
                Body::Got(count)
            }
            _ => Body::NotYet,
        }
    }
}
