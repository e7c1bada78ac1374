//! The source of a request's content.

use tow_model::Framing;
use tow_pipe::Pipe;
use tow_source::{Body, BodySource, ChunkedSource, FixedSource};

/// The source of a request's content by its framing (RFC 9112, section 6.3).
#[derive(Clone, Copy, Debug)]
pub enum ContentSource {
    /// There is no content: it has ended before its first byte.
    Empty,
    Fixed(FixedSource),
    Chunked(ChunkedSource),
}

impl ContentSource {
    ghost use Rattle.tow_source.specs.Readings.{unread};
    ghost use Rattle.tow_content.specs.Sources.{ReadsContent};

    /// The source of a content of which nothing is read. Takes no memory.
    pub fn new(framing: Framing) -> ContentSource
        ensures { ReadsContent result (unread framing) }
    {
        match framing {
            Framing::Empty => ContentSource::Empty,
            Framing::Fixed(len) => ContentSource::Fixed(FixedSource::new(len)),
            Framing::Chunked => ContentSource::Chunked(ChunkedSource::new()),
        }
    }
}

impl BodySource for ContentSource {
    ghost use Rattle.tow_content.specs.Sources.{ReadsContent};

    ghost reads = { ReadsContent };

    fn read(&mut self, from: &mut Pipe, to: &mut [u8]) -> Body {
        match self {
            ContentSource::Empty => Body::End,
            ContentSource::Fixed(source) => source.read(from, to),
            ContentSource::Chunked(source) => source.read(from, to),
        }
    }
}
