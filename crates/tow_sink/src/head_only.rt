use crate::{Finish, StreamSink};
use tow_pipe::Pipe;

/// Puts nothing, whatever it is fed: for an answer that has a head alone. Its inner sink has no
/// call.
#[derive(Drop)]
pub struct HeadOnly<S> {
    pub inner: S,
}

impl<S: StreamSink> HeadOnly<S> {
    ghost use Rattle.tow_sink.specs.Feeds.{OpensAround};
    ghost use Rattle.tow_sink.specs.HeadOnlyFeeding.{FeedsHeadOnly, head_only};

    /// A sink before its first byte, in place of `inner`. Takes no memory.
    pub fn new(inner: S) -> HeadOnly<S>
        ensures { OpensAround (S.feeds inner) head_only (FeedsHeadOnly (S.feeds result.inner)) }
    {
        HeadOnly { inner }
    }
}

impl<S: StreamSink> StreamSink for HeadOnly<S> {
    ghost use Rattle.tow_sink.specs.HeadOnlyFeeding.{FeedsHeadOnly};

    ghost feeds = { λ sink. FeedsHeadOnly (S.feeds sink.inner) };

    fn write(&mut self, _pipe: &mut Pipe, from: &[u8]) -> usize {
        from.len()
    }

    fn finish(&mut self, _pipe: &mut Pipe) -> Finish {
        Finish::Finished
    }
}
