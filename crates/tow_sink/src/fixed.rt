use crate::{Finish, StreamSink};
use tow_pipe::Pipe;

/// Hands on the bytes up to a length, and takes no more.
#[derive(Drop)]
pub struct Fixed<S> {
    inner: S,
    left: u64,
}

impl<S: StreamSink> Fixed<S> {
    ghost use Rattle.tow_sink.specs.Feeds.{OpensAround};
    ghost use Rattle.tow_sink.specs.FixedFeeding.{FeedsFixed, fixed};

    /// A sink of so many bytes, around `inner`. Takes no memory.
    pub fn new(inner: S, len: u64) -> Fixed<S>
        ensures { OpensAround (S.feeds inner) (fixed len)
            (FeedsFixed (S.feeds result.inner) result.left) }
    {
        Fixed { inner, left: len }
    }
}

impl<S> Fixed<S> {
    ghost use Rattle.std.specs.Prelude.{◌≡◌, min};

    // How many of so many bytes it still takes.
    fn fitting(&self, len: usize) -> usize
        ensures { result ≡ min self.now.left len }
    {
        if self.left < len as u64 {
            self.left as usize
        } else {
            len
        }
    }
}

impl<S: StreamSink> StreamSink for Fixed<S> {
    ghost use Rattle.tow_sink.specs.FixedFeeding.{FeedsFixed};

    ghost feeds = { λ sink. FeedsFixed (S.feeds sink.inner) sink.left };

    fn write(&mut self, pipe: &mut Pipe, from: &[u8]) -> usize {
        let most = self.fitting(from.len());
        let count = self.inner.write(pipe, &from[..most]);
        self.left -= count as u64;
        count
    }

    fn finish(&mut self, pipe: &mut Pipe) -> Finish {
        self.inner.finish(pipe)
    }
}
