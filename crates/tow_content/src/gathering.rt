//! A content that is collected whole.

ghost use Rattle.std.specs.Prelude.{◌≡◌, ◌*◌, min, max};
ghost use Rattle.tow_model.specs.declared.limits.TheConstants.{MAX_CONTENT_LEN};

use crate::ContentSource;
use std::alloc::{AllocError, Global};
use std::mem;
use tow_model::limits::MAX_CONTENT_LEN;
use tow_model::{Bytes, Content, Framing};
use tow_pipe::Pipe;
use tow_source::{Body, BodySource};

// The bytes that are read at a time.
const STEP_LEN: usize = 4_096;

/// What a call of a gathering has found.
#[derive(Debug, Drop)]
pub enum Gathered {
    /// The content has come to its end, whole or refused.
    Content(Content),
    /// All that came is taken, and the content goes on.
    NotYet,
    /// There is no memory for what came.
    NoMemory,
}

/// A content that is collected whole, as its bytes come.
#[derive(Debug, Drop)]
pub struct Gathering {
    source: ContentSource,
    bytes: Vec<u8>,
}

impl Gathering {
    ghost use Rattle.std.specs.Prelude.{◌++◌, OnOk};
    ghost use Rattle.tow_source.specs.Readings.{Onward, unread};
    ghost use Rattle.tow_content.specs.Gatherings.{Gathers, GathersPipe, StandsFor};

    /// A gathering of a content of which nothing is read. Takes no memory.
    pub fn new(alloc: Global, framing: Framing) -> Gathering
        ensures { Gathers result (unread framing) }
    {
        Gathering {
            source: ContentSource::new(framing),
            bytes: Vec::new(alloc),
        }
    }

    /// Takes what the pipe holds of the content. At its end the bytes are handed out in the block that they were collected
    /// in. Takes memory for the bytes as they come, in one block of at most 1,048,576 bytes, whatever length was told.
    /// After an end, and after a want of memory, no further call is to be made: what it would answer is left open.
    pub fn run(&mut self, alloc: Global, from: &mut Pipe) -> Gathered
        ensures { Onward (Gathers self.old) (StandsFor result self.new)
            (GathersPipe result from.old from.new) }
    {
        let mut bytes = [0u8; STEP_LEN];
        loop {
            match self.source.read(from, &mut bytes) {
                Body::Got(count) => {
                    if self.add(&bytes[..count]).is_err() {
                        return Gathered::NoMemory;
                    }
                }
                Body::NotYet => return Gathered::NotYet,
                Body::End => return Gathered::Content(Content::Whole(self.take_bytes(alloc))),
                Body::Bad => return Gathered::Content(Content::Bad),
                Body::TooLong => return Gathered::Content(Content::TooLong),
            }
        }
    }

    // Appends bytes of the content.
    fn add(&mut self, bytes: &[u8]) -> Result<(), AllocError>
        ensures bytes { OnOk result (self.new.bytes.items ≡ self.old.bytes.items ++ bytes.now) }
        ensures source { self.new.source ≡ self.old.source }
    {
        let len = self.bytes.len();
        let needed = len.saturating_add(bytes.len());
        if needed > self.bytes.capacity() {
            let capacity = next_capacity(self.bytes.capacity(), needed);
            self.bytes.reserve_exact(capacity - len)?;
        }
        self.bytes.extend_from_slice(bytes)
    }

    // Hands out the bytes that were collected.
    fn take_bytes(&mut self, alloc: Global) -> Bytes
        ensures { result ≡ self.old.bytes.items }
    {
        Bytes::from_vec(mem::replace(&mut self.bytes, Vec::new(alloc)))
    }
}

// The capacity of the next block, in bytes: twice the last one's, but no more than a content may have, and as much as is
// needed.
fn next_capacity(last: usize, needed: usize) -> usize
    ensures { result ≡ max needed (min (last * 2) MAX_CONTENT_LEN) }
{
    let most = MAX_CONTENT_LEN as usize;
    needed.max(last.saturating_mul(2).min(most))
}
