//! A folder in memory.

ghost use Rattle.std.specs.Prelude.{◌≡◌, ◌<◌, ◌≤◌, [], MatchResult, true, false, length, min, take};
ghost use Rattle.tow_link.specs.Data.{Rose};
ghost use Rattle.tow_faults.specs.Faults.{KeepsOtherFaults, faults_for};
ghost use Rattle.tow_semantics.specs.Files.{is_map};
ghost use Rattle.tow_folder.specs.Memory.{files_told, memory_folder, noted_faults};

use crate::looking::{bytes_at, look_in};
use crate::naming::names_in;
use crate::{Folder, Listed, Look, MemoryFile, Part, mapping};
use std::alloc::{AllocError, Global};
use tow_link::CallNumbers;

/// The numbers, from 0, of the calls of each kind that fail.
#[derive(Drop)]
pub struct FailingCalls {
    pub look: Vec<u64>,
    pub read_at: Vec<u64>,
    pub names: Vec<u64>,
}

/// Some files are not the map of a folder: a path does not begin with `/` or has an empty segment
/// behind that, or two are the same, or one lies below another.
#[derive(Clone, Copy, Debug, PartialEq, Eq)]
pub struct NoMap;

/// A folder that tells its files.
#[derive(Drop)]
pub struct MemoryFolder {
    files: Vec<MemoryFile>,
    looks: CallNumbers,
    reads: CallNumbers,
    listings: CallNumbers,
    // the connections whose calls failed, one for each
    failed: Vec<u32>,
    // how many more calls failed
    unnoted: u64,
    ghost mapped: { is_map (files_told files.items) ≡ true },
}

impl MemoryFolder {
    /// A folder of these files, which are the map of a folder, in which these calls fail. Takes no
    /// memory.
    pub fn new(alloc: Global, files: Vec<MemoryFile>, failing: FailingCalls) -> Result<Self, NoMap>
        ensures { MatchResult result
            (λ folder. ⟦<MemoryFolder as Folder>⟧.shows folder
            ≡ memory_folder [] 0 (files_told files.items))
            (λ e. is_map (files_told files.items) ≡ false) }
    {
        if !mapping::is_map(&files) {
            return Err(NoMap);
        }
        let FailingCalls {
            look,
            read_at,
            names,
        } = failing;
        Ok(MemoryFolder {
            files,
            looks: CallNumbers::new(look),
            reads: CallNumbers::new(read_at),
            listings: CallNumbers::new(names),
            failed: Vec::new(alloc),
            unnoted: 0,
        })
    }

    /// The connections whose calls have failed, one for each, in their order.
    pub fn failed(&self) -> &[u32]
        ensures { result.now ≡ self.now.failed.items }
    {
        &self.failed
    }

    /// How many more calls have failed without memory to note the connection, which counts for
    /// every connection. The count stands still at its last value.
    pub fn unnoted(&self) -> u64
        ensures { result ≡ self.now.unnoted }
    {
        self.unnoted
    }
}

impl Folder for MemoryFolder {
    ghost shows = { λ folder. memory_folder folder.failed.items folder.unnoted
        (files_told folder.files.items) };

    ghost is_mapped = { λ folder. folder.mapped };

    fn look(&mut self, k: u32, path: &[u8]) -> Look {
        if self.looks.next_is_listed() {
            note_fault(&mut self.failed, &mut self.unnoted, k);
            return Look::Failed;
        }
        look_in(&self.files, path)
    }

    fn read_at(&mut self, k: u32, path: &[u8], at: u64, to: &mut [u8]) -> Part {
        if self.reads.next_is_listed() {
            note_fault(&mut self.failed, &mut self.unnoted, k);
            return Part::Failed;
        }
        Part::Got(copy_part(&bytes_at(&self.files, path)[at as usize..], to))
    }

    fn names(&mut self, k: u32, path: &[u8]) -> Listed {
        if self.listings.next_is_listed() {
            note_fault(&mut self.failed, &mut self.unnoted, k);
            return Listed::Failed;
        }
        match names_in(*self.failed.allocator(), &self.files, path) {
            Ok(names) => Listed::Names(names),
            Err(AllocError) => Listed::NoMemory,
        }
    }
}

/// Counts a fault for a connection: notes the connection, or counts it for every one if there is no
/// memory for that.
fn note_fault(failed: &mut Vec<u32>, unnoted: &mut u64, k: u32)
    ensures failed { Rose (faults_for (noted_faults failed.old.items unnoted.old) k)
        (faults_for (noted_faults failed.new.items unnoted.new) k) }
    ensures later { faults_for (noted_faults failed.old.items unnoted.old) k
        ≤ faults_for (noted_faults failed.new.items unnoted.new) k }
    ensures others { KeepsOtherFaults (noted_faults failed.old.items unnoted.old)
        (noted_faults failed.new.items unnoted.new) k }
{
    if failed.push(k).is_err() {
        *unnoted = unnoted.saturating_add(1);
    }
}

/// Copies as many bytes as fit from the front of the bytes to the front of the buffer, and says how
/// many. Neither is empty.
fn copy_part(bytes: &[u8], to: &mut [u8]) -> usize
    requires bytes { 0 < length bytes.now }
    requires room { 0 < length to.old }
    ensures count { result ≡ min (length bytes.now) (length to.new) }
    ensures some { 0 < result }
    ensures copied { take result to.new ≡ take result bytes.now }
{
    let count = bytes.len().min(to.len());
    to[..count].copy_from_slice(&bytes[..count]);
    count
}
