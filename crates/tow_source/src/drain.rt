ghost use Rattle.tow_source.specs.Readings.{DrainsPipe, Onward};

use crate::{Body, BodySource, Drained};
use tow_pipe::Pipe;

// The bytes that a drain reads at a time.
const STEP_LEN: usize = 4_096;

/// Reads a content to its end and drops its bytes.
#[derive(Drop)]
pub struct Drain<S> {
    pub source: S,
}

impl<S> Drain<S> {
    ghost use Rattle.std.specs.Prelude.{◌≡◌};

    /// A drain of what the source has left to give. Takes no memory.
    pub fn new(source: S) -> Drain<S>
        ensures { result.source ≡ source }
    {
        Drain { source }
    }
}

impl<S: BodySource> Drain<S> {
    /// Takes what the pipe holds of the content. After an end the same answer comes again. Takes no memory.
    pub fn run(&mut self, from: &mut Pipe) -> Drained
        ensures { Onward (S.reads self.old.source) (S.reads self.new.source)
            (DrainsPipe result from.old from.new) }
    {
        let mut bytes = [0u8; STEP_LEN];
        loop {
            match self.source.read(from, &mut bytes) {
                Body::Got(_) => {}
                Body::NotYet => return Drained::NotYet,
                Body::End => return Drained::Whole,
                Body::Bad => return Drained::Bad,
                Body::TooLong => return Drained::TooLong,
            }
        }
    }
}
