ghost use Rattle.std.specs.Prelude.{◌≤◌, length};
ghost use Rattle.tow_sink.specs.Calls.{Finishes, OnFinish, OnWrite, Writes};

use crate::Finish;
use tow_pipe::Pipe;

/// Frames the bytes that are fed to it into a pipe.
pub trait StreamSink {
    ghost use Rattle.tow_sink.specs.Feeds.{Feeding};

    /// The feedings that a sink may have had so far: what it makes of a feed, what was fed, and what
    /// of it was put.
    ghost feeds: { Self → Feeding → Type 0 };

    /// Feeds the first bytes of `from`, puts what fits of their framing and of what is pending, and
    /// answers how many bytes were fed. The rest of a short write is to be handed in again. No write
    /// may follow `finish`. Takes no memory.
    fn write(&mut self, pipe: &mut Pipe, from: &[u8]) -> usize
        ensures law { OnWrite (feeds self.old) (feeds self.new)
            (Writes result from.now pipe.old pipe.new) }
        ensures count { result ≤ length from.now };

    /// Ends the feed and puts what fits of what is pending. After `Full` it is called again. Takes no
    /// memory.
    fn finish(&mut self, pipe: &mut Pipe) -> Finish
        ensures law { OnFinish (feeds self.old) (feeds self.new)
            (Finishes result pipe.old pipe.new) };
}
