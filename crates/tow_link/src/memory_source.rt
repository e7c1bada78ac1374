ghost use Rattle.std.specs.Prelude.{◌≡◌, ℕ, ◌<◌, ◌≤◌, ◌++◌, [], Some, length, IfOk, IfSome, IsSomeAnd, flat_map};
ghost use Rattle.tow_link.specs.Data.{fresh_source, content_of};

use crate::{CallNumbers, Read, Source};
use std::alloc::{AllocError, Global};
use std::marker::Model;

/// A source over bytes in memory, which come in pieces: no read goes past the end of a piece.
#[derive(Drop)]
pub struct MemorySource {
    bytes: Vec<u8>,
    at: usize,
    // where each piece ends, in order
    ends: Vec<usize>,
    failing: CallNumbers,
    faults: u64,
}

impl Model for MemorySource {
    ghost use Rattle.std.specs.Prelude.{◌≤◌, Some, take, drop, length};
    ghost use Rattle.tow_link.specs.Data.{SourceData};

    ghost Value = { SourceData };

    ghost view = { λ source. record {
      faults = source.faults;
      told = Some (record {
        read = take source.at source.bytes.items;
        left = drop source.at
            source.bytes.items;
      });
    } };

    ghost invariant = { λ source. source.at ≤ length source.bytes.items };
}

impl MemorySource {
    /// A source of these bytes in one piece. The reads of these numbers, from 0, fail.
    pub fn new(bytes: Vec<u8>, failing: Vec<u64>) -> Self
        ensures { result ≡ fresh_source bytes.items }
    {
        let ends = Vec::new(*bytes.allocator());
        MemorySource {
            bytes,
            at: 0,
            ends,
            failing: CallNumbers::new(failing),
            faults: 0,
        }
    }

    /// A source of these pieces, one after the other; an empty one is passed over. The reads of these numbers, from
    /// 0, fail. Takes memory.
    pub fn of_pieces(
        alloc: Global,
        pieces: Vec<Vec<u8>>,
        failing: Vec<u64>,
    ) -> Result<Self, AllocError>
        ensures { IfOk result (λ source. source
            ≡ fresh_source (flat_map (λ piece. piece.items) pieces.items)) }
    {
        let mut bytes = Vec::new(alloc);
        let mut ends = Vec::new(alloc);
        'pieces: for piece in &pieces {
            bytes.extend_from_slice(piece)?;
            ends.push(bytes.len())?;
        }
        Ok(MemorySource {
            bytes,
            at: 0,
            ends,
            failing: CallNumbers::new(failing),
            faults: 0,
        })
    }

    /// A source of the same bytes in the same pieces, of which nothing was read yet and the same reads fail. Takes
    /// memory.
    pub fn restarted(&self) -> Result<Self, AllocError>
        ensures { IfOk result (λ source. IsSomeAnd self.now.told (λ told. source
            ≡ fresh_source (content_of told))) }
    {
        Ok(MemorySource {
            bytes: self.bytes.clone()?,
            at: 0,
            ends: self.ends.clone()?,
            failing: self.failing.restarted()?,
            faults: 0,
        })
    }

    /// What was read.
    pub fn taken(&self) -> &[u8]
        ensures { IsSomeAnd self.now.told (λ told. result.now ≡ told.read) }
    {
        &self.bytes[..self.at]
    }

    /// What is left.
    pub fn left(&self) -> &[u8]
        ensures { IsSomeAnd self.now.told (λ told. result.now ≡ told.left) }
    {
        &self.bytes[self.at..]
    }

    /// How many reads have failed.
    pub fn faults(&self) -> u64
        ensures { result ≡ self.now.faults }
    {
        self.faults
    }
}

impl Source for MemorySource {
    ghost shows = { λ source. source };

    fn read(&mut self, to: &mut [u8]) -> Read {
        if self.failing.next_is_listed() {
            self.faults = self.faults.saturating_add(1);
            return Read::Failed;
        }
        if self.at == self.bytes.len() {
            return Read::End;
        }
        let end = piece_end(&self.ends, self.at, self.bytes.len());
        let count = (end - self.at).min(to.len());
        to[..count].copy_from_slice(&self.bytes[self.at..self.at + count]);
        self.at += count;
        Read::Got(count)
    }
}

// Where the piece ends in which the byte at `at` stands: the first end behind it, or that of all the bytes.
fn piece_end(ends: &[usize], at: usize, len: usize) -> usize
    requires { at < len }
    ensures behind { at < result }
    ensures within { result ≤ len }
{
    let end = ends.iter().copied().find(|end| *end > at);
    end.unwrap_or(len).min(len)
}
