ghost use Rattle.std.specs.Prelude.{◌≡◌, [], Some};

use crate::{CallNumbers, Sink, Write};
use std::alloc::Global;
use std::marker::Model;

/// A sink that keeps what was written. It takes all that is offered in one call.
#[derive(Drop)]
pub struct MemorySink {
    bytes: Vec<u8>,
    failing: CallNumbers,
    faults: u64,
}

impl Model for MemorySink {
    ghost use Rattle.std.specs.Prelude.{Some};
    ghost use Rattle.tow_link.specs.Data.{SinkData};

    ghost Value = { SinkData };

    ghost view = { λ sink. record { faults = sink.faults; written = Some sink.bytes.items } };
}

impl MemorySink {
    /// An empty sink. The writes of these numbers, from 0, fail; so does one that finds no memory.
    pub fn new(alloc: Global, failing: Vec<u64>) -> Self
        ensures { result ≡ record { faults = 0; written = Some [] } }
    {
        MemorySink {
            bytes: Vec::new(alloc),
            failing: CallNumbers::new(failing),
            faults: 0,
        }
    }

    /// What was written.
    pub fn written(&self) -> &[u8]
        ensures { self.now.written ≡ Some result.now }
    {
        &self.bytes
    }

    /// How many writes have failed.
    pub fn faults(&self) -> u64
        ensures { result ≡ self.now.faults }
    {
        self.faults
    }
}

impl Sink for MemorySink {
    ghost shows = { λ sink. sink };

    fn write(&mut self, from: &[u8]) -> Write {
        if self.failing.next_is_listed() || self.bytes.extend_from_slice(from).is_err() {
            self.faults = self.faults.saturating_add(1);
            return Write::Failed;
        }
        Write::Took(from.len())
    }
}
