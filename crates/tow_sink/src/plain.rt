use crate::{Finish, StreamSink};
use tow_pipe::Pipe;

/// Puts the bytes as they are.
#[derive(Clone, Copy, Debug)]
pub struct Plain {}

impl Plain {
    ghost use Rattle.tow_sink.specs.Feeds.{Opens};
    ghost use Rattle.tow_sink.specs.PlainFeeding.{FeedsPlain, plain};

    /// A sink before its first byte. Takes no memory.
    pub fn new() -> Plain
        ensures { Opens (FeedsPlain result) plain }
    {
        Plain {}
    }
}

impl StreamSink for Plain {
    ghost use Rattle.tow_sink.specs.PlainFeeding.{FeedsPlain};

    ghost feeds = { FeedsPlain };

    fn write(&mut self, pipe: &mut Pipe, from: &[u8]) -> usize {
        pipe.put(from)
    }

    fn finish(&mut self, _pipe: &mut Pipe) -> Finish {
        Finish::Finished
    }
}
