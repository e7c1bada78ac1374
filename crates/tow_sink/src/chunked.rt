use crate::text::Text;
use crate::{Finish, StreamSink};
use tow_pipe::Pipe;

/// Hands on each block that is handed in as a chunk, and at the end the last chunk (RFC 9112,
/// section 7.1). A write after a short one goes on in its block.
#[derive(Drop)]
pub struct Chunked<S> {
    inner: S,
    text: Text,
    // How many bytes are left of the block under way.
    left: usize,
    is_ended: bool,
}

impl<S: StreamSink> Chunked<S> {
    ghost use Rattle.std.specs.Prelude.{◌≡◌, ◌+◌, ◌-◌, ◌≤◌, ◌++◌, ◌==◌, true, length, drop};
    ghost use Rattle.std.specs.Prelude.{if◌then◌else◌};
    ghost use Rattle.httparse.specs.Ascii.{crlf_bytes};
    ghost use Rattle.tow_wire.specs.Answers.{last_chunk};
    ghost use Rattle.tow_sink.specs.Calls.{OnWrite, Writes};
    ghost use Rattle.tow_sink.specs.Feeds.{OpensAroundBytes};
    ghost use Rattle.tow_sink.specs.ChunkedFeeding.{FeedsChunked, HandsText, chunked};

    /// A sink before its first byte, around `inner`. Takes no memory.
    pub fn new(inner: S) -> Chunked<S>
        ensures { OpensAroundBytes (S.feeds inner) chunked
            (FeedsChunked (S.feeds result.inner) result.text result.left result.is_ended) }
    {
        Chunked {
            inner,
            text: Text::empty(),
            left: 0,
            is_ended: false,
        }
    }

    // Hands on the text, and answers whether that is done.
    fn hand_text(&mut self, pipe: &mut Pipe) -> bool
        ensures handed { HandsText (S.feeds self.old.inner) (S.feeds self.new.inner)
            self.old.text self.new.text pipe.old pipe.new }
        ensures answer { result ≡ (length self.new.text == 0) }
        ensures left { self.new.left ≡ self.old.left }
        ensures ended { self.new.is_ended ≡ self.old.is_ended }
    {
        let count = self.inner.write(pipe, self.text.as_slice());
        self.text.take(count);
        self.text.len() == 0
    }

    // Lets the last chunk follow, if it does not yet.
    fn end(&mut self)
        ensures text { self.new.text ≡ (if self.old.is_ended then self.old.text
            else drop (2 - length self.old.text) crlf_bytes ++ last_chunk) }
        ensures ended { self.new.is_ended ≡ true }
        ensures left { self.new.left ≡ self.old.left }
        ensures inner { self.new.inner ≡ self.old.inner }
    {
        if !self.is_ended {
            self.text = Text::last_chunk(self.text.len());
            self.is_ended = true;
        }
    }

    // Feeds bytes of the block under way.
    fn go_on(&mut self, pipe: &mut Pipe, from: &[u8]) -> usize
        requires { length from.now ≤ self.old.left }
        ensures law { OnWrite
            (FeedsChunked (S.feeds self.old.inner) self.old.text self.old.left self.old.is_ended)
            (FeedsChunked (S.feeds self.new.inner) self.new.text self.new.left self.new.is_ended)
            (Writes result from.now pipe.old pipe.new) }
        ensures count { result ≤ length from.now }
        ensures left { self.new.left + result ≡ self.old.left }
    {
        if !self.hand_text(pipe) {
            return 0;
        }
        let count = self.inner.write(pipe, from);
        self.left -= count;
        if count > 0 && self.left == 0 {
            self.text = Text::line_end();
            self.hand_text(pipe);
        }
        count
    }
}

impl<S: StreamSink> StreamSink for Chunked<S> {
    ghost use Rattle.tow_sink.specs.ChunkedFeeding.{FeedsChunked};

    ghost feeds = { λ sink. FeedsChunked (S.feeds sink.inner) sink.text sink.left sink.is_ended };

    fn write(&mut self, pipe: &mut Pipe, from: &[u8]) -> usize {
        let first = self.left.min(from.len());
        let count = self.go_on(pipe, &from[..first]);
        if self.left > 0 || count == from.len() {
            return count;
        }
        let block = &from[first..];
        self.text = Text::size_line(self.text.len(), block.len());
        self.left = block.len();
        count + self.go_on(pipe, block)
    }

    fn finish(&mut self, pipe: &mut Pipe) -> Finish {
        self.end();
        if self.text.len() == 0 {
            return self.inner.finish(pipe);
        }
        if !self.hand_text(pipe) {
            return Finish::Full;
        }
        self.inner.finish(pipe)
    }
}
