ghost use Rattle.std.specs.Prelude.{◌≡◌, ◌≤◌};
ghost use Rattle.tow_link.specs.Data.{Rose};
ghost use Rattle.tow_link.specs.Runs.{ReadsWhole};

use crate::{Read, Source};
use std::alloc::Global;

/// The bytes that are read at a time.
const PIECE: usize = 4096;

/// What was read of a source up to a limit.
#[derive(Debug, Drop, PartialEq, Eq)]
pub enum Whole {
    /// All that the source had left, within the limit.
    Bytes(Vec<u8>),
    /// The front of more than the limit: one byte past it was read.
    TooLong(Vec<u8>),
    /// The source failed, and counted it.
    Failed,
    /// There was no memory for what was read.
    NoMemory,
}

/// Reads a source to its end, or up to one byte past a limit of `most` bytes. Takes memory.
pub fn read_whole<S: Source>(alloc: Global, source: &mut S, most: usize) -> Whole
    ensures reads { ReadsWhole (S.shows source.old).told (S.shows source.new).told most result }
    ensures later { (S.shows source.old).faults ≤ (S.shows source.new).faults }
    ensures failed { result ≡ Whole.Failed
        → Rose (S.shows source.old).faults (S.shows source.new).faults }
{
    let mut bytes = Vec::new(alloc);
    let mut buffer = [0; PIECE];
    'reads: while bytes.len() <= most {
        let room = (most - bytes.len()).saturating_add(1).min(buffer.len());
        match source.read(&mut buffer[..room]) {
            Read::Got(count) => {
                if bytes.extend_from_slice(&buffer[..count]).is_err() {
                    return Whole::NoMemory;
                }
            }
            Read::End => return Whole::Bytes(bytes),
            Read::Failed => return Whole::Failed,
        }
    }
    Whole::TooLong(bytes)
}
