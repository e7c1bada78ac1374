use crate::{Finish, StreamSink};
use std::alloc::Global;
use tow_model::NoMemory;
use tow_model::limits::BLOCK_LEN;
use tow_pipe::Pipe;

/// Hands on blocks of 16,384 bytes, the last one shorter. It asks nothing of how its own bytes are
/// cut.
#[derive(Drop)]
pub struct Buffered<S> {
    inner: S,
    held: Pipe,
    // Whether what is held is the rest of a block that is being handed on.
    is_handing: bool,
}

impl<S: StreamSink + Drop> Buffered<S> {
    ghost use Rattle.std.specs.Prelude.{IfOk};
    ghost use Rattle.tow_sink.specs.Feeds.{OpensAround};
    ghost use Rattle.tow_sink.specs.BufferedFeeding.{FeedsBuffered, buffered};

    /// A sink before its first byte, around `inner`. Takes memory for one block.
    pub fn new(alloc: Global, inner: S) -> Result<Buffered<S>, NoMemory>
        ensures { IfOk result (λ sink. OpensAround (S.feeds inner) buffered
            (FeedsBuffered (S.feeds sink.inner) sink.held sink.is_handing)) }
    {
        let held = Pipe::new(alloc, BLOCK_LEN)?;
        Ok(Buffered {
            inner,
            held,
            is_handing: false,
        })
    }
}

impl<S: StreamSink> Buffered<S> {
    ghost use Rattle.std.specs.Prelude.{◌≡◌, ◌≤◌, not, length};
    ghost use Rattle.tow_sink.specs.Calls.{OnWrite};
    ghost use Rattle.tow_sink.specs.Steps.{Holds};
    ghost use Rattle.tow_sink.specs.BufferedFeeding.{FeedsBuffered, HandsOn};

    // Hands on the rest of the block under way, or nothing, and answers whether that is done.
    fn hand_on(&mut self, pipe: &mut Pipe) -> bool
        ensures handed { HandsOn (S.feeds self.old.inner) (S.feeds self.new.inner)
            self.old.is_handing self.new.is_handing self.old.held self.new.held pipe.old pipe.new }
        ensures answer { result ≡ not self.new.is_handing }
    {
        if !self.is_handing {
            let nothing: &[u8] = &[];
            self.inner.write(pipe, nothing);
            return true;
        }
        let count = self.inner.write(pipe, self.held.view());
        self.held.take(count);
        self.is_handing = self.held.len() > 0;
        !self.is_handing
    }

    // Hands on what is due, holds the first bytes of `from` in the room that is left then, and
    // answers how many.
    fn hold(&mut self, pipe: &mut Pipe, from: &[u8]) -> usize
        ensures law { OnWrite
            (FeedsBuffered (S.feeds self.old.inner) self.old.held self.old.is_handing)
            (FeedsBuffered (S.feeds self.new.inner) self.new.held self.new.is_handing)
            (Holds result from.now pipe.old pipe.new) }
        ensures count { result ≤ length from.now }
    {
        if !self.hand_on(pipe) {
            return 0;
        }
        let count = self.held.put(from);
        self.is_handing = self.held.room() == 0;
        count
    }
}

impl<S: StreamSink> StreamSink for Buffered<S> {
    ghost use Rattle.tow_sink.specs.BufferedFeeding.{FeedsBuffered};

    ghost feeds = { λ sink. FeedsBuffered (S.feeds sink.inner) sink.held sink.is_handing };

    fn write(&mut self, pipe: &mut Pipe, from: &[u8]) -> usize {
        let mut count = 0;
        while count < from.len() {
            let more = self.hold(pipe, &from[count..]);
            if more == 0 {
                return count;
            }
            count += more;
        }
        self.hand_on(pipe);
        count
    }

    fn finish(&mut self, pipe: &mut Pipe) -> Finish {
        if self.held.len() == 0 {
            return self.inner.finish(pipe);
        }
        self.is_handing = true;
        if !self.hand_on(pipe) {
            return Finish::Full;
        }
        self.inner.finish(pipe)
    }
}
