use crate::moving::move_bytes;
use crate::{Body, BodySource};
use tow_model::limits::MAX_CONTENT_LEN;
use tow_pipe::Pipe;

/// The source of a content of known length: its bytes, as they are (RFC 9112, section 6.3).
#[derive(Clone, Copy, Debug)]
pub struct FixedSource {
    len: u64,
    left: u64,
}

impl FixedSource {
    ghost use Rattle.tow_model.specs.declared.request.Framing.TheVariants.{Fixed};
    ghost use Rattle.tow_source.specs.Readings.{unread};
    ghost use Rattle.tow_source.specs.FixedReading.{ReadsFixed};

    /// A source of so many bytes. Above the limit of 1,048,576 it answers `TooLong`, and takes nothing.
    pub fn new(len: u64) -> FixedSource
        ensures { ReadsFixed result (unread (Fixed len)) }
    {
        FixedSource { len, left: len }
    }
}

impl BodySource for FixedSource {
    ghost use Rattle.tow_source.specs.FixedReading.{ReadsFixed};

    ghost reads = { ReadsFixed };

    fn read(&mut self, from: &mut Pipe, to: &mut [u8]) -> Body {
        if self.len > MAX_CONTENT_LEN {
            return Body::TooLong;
        }
        if self.left == 0 {
            return Body::End;
        }
        let count = move_bytes(from, to, self.left);
        if count == 0 {
            return Body::NotYet;
        }
        self.left -= count as u64;
        Body::Got(count)
    }
}
