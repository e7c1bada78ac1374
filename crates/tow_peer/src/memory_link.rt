//! A link in memory.

ghost use Rattle.std.specs.Prelude.{◌≡◌, Some, IfOk, flat_map};
ghost use Rattle.tow_peer.specs.Memory.{fresh_link};

use crate::answers::{LinkRead, LinkWrite};
use crate::link::Link;
use std::alloc::{AllocError, Global};
use std::marker::Model;
use tow_link::{CallNumbers, MemorySink, MemorySource, Read, Sink, Source, Write};

/// The numbers, from 0, of the calls of one kind that give nothing yet, and of those that fail. A call whose number stands
/// in both fails.
#[derive(Drop)]
pub struct Calls {
    pub stalling: Vec<u64>,
    pub failing: Vec<u64>,
}

// what becomes of a call
#[derive(Clone, Copy)]
enum Fate {
    Done,
    Stalls,
    Fails,
}

// the calls of one kind, and how many have stalled and failed
#[derive(Drop)]
struct Fates {
    stalling: CallNumbers,
    failing: CallNumbers,
}

/// A link to a peer in memory, whose bytes come in pieces, and which keeps what was written.
#[derive(Drop)]
pub struct MemoryLink {
    peer: u32,
    input: MemorySource,
    output: MemorySink,
    reads: Fates,
    writes: Fates,
    faults: u64,
    read_stalls: u64,
    write_stalls: u64,
}

impl Model for MemoryLink {
    ghost use Rattle.std.specs.Prelude.{Some};
    ghost use Rattle.tow_peer.specs.Links.{LinkData};

    ghost Value = { LinkData };

    ghost view = { λ link. record {
      faults = link.faults;
      read_stalls = link.read_stalls;
      write_stalls = link.write_stalls;
      peer = Some link.peer;
      input = link.input.told;
      written = link.output.written;
    } };
}

impl Fates {
    fn new(calls: Calls) -> Fates {
        let Calls { stalling, failing } = calls;
        Fates {
            stalling: CallNumbers::new(stalling),
            failing: CallNumbers::new(failing),
        }
    }

    /// Counts a call, and says what becomes of it.
    fn next(&mut self) -> Fate {
        let stalls = self.stalling.next_is_listed();
        if self.failing.next_is_listed() {
            Fate::Fails
        } else if stalls {
            Fate::Stalls
        } else {
            Fate::Done
        }
    }
}

impl MemoryLink {
    /// A link to this peer, an IPv4 address as a number, of which these pieces come, one after the other; an empty one is
    /// passed over. Takes memory.
    pub fn new(
        alloc: Global,
        peer: u32,
        pieces: Vec<Vec<u8>>,
        reads: Calls,
        writes: Calls,
    ) -> Result<MemoryLink, AllocError>
        ensures { IfOk result (λ link. link
            ≡ fresh_link peer (flat_map (λ piece. piece.items) pieces.items)) }
    {
        Ok(MemoryLink {
            peer,
            input: MemorySource::of_pieces(alloc, pieces, Vec::new(alloc))?,
            output: MemorySink::new(alloc, Vec::new(alloc)),
            reads: Fates::new(reads),
            writes: Fates::new(writes),
            faults: 0,
            read_stalls: 0,
            write_stalls: 0,
        })
    }

    /// What was written.
    pub fn written(&self) -> &[u8]
        ensures { self.now.written ≡ Some result.now }
    {
        self.output.written()
    }
}

impl Link for MemoryLink {
    ghost shows = { λ link. link };

    fn read(&mut self, to: &mut [u8]) -> LinkRead {
        let read = match self.reads.next() {
            Fate::Done => self.input.read(to),
            Fate::Fails => Read::Failed,
            Fate::Stalls => {
                self.read_stalls = self.read_stalls.saturating_add(1);
                return LinkRead::NotYet;
            }
        };
        match read {
            Read::Got(count) => LinkRead::Got(count),
            Read::End => LinkRead::End,
            Read::Failed => {
                self.faults = self.faults.saturating_add(1);
                LinkRead::Failed
            }
        }
    }

    fn write(&mut self, from: &[u8]) -> LinkWrite {
        let written = match self.writes.next() {
            Fate::Done => self.output.write(from),
            Fate::Fails => Write::Failed,
            Fate::Stalls => {
                self.write_stalls = self.write_stalls.saturating_add(1);
                return LinkWrite::NotYet;
            }
        };
        match written {
            Write::Took(count) => LinkWrite::Took(count),
            Write::Failed => {
                self.faults = self.faults.saturating_add(1);
                LinkWrite::Failed
            }
        }
    }

    fn peer(&self) -> u32 {
        self.peer
    }
}
