//! A log in memory.

ghost use Rattle.std.specs.Prelude.{◌≡◌, ◌∷◌, ◌++◌, [], OnOk, OnErr};
ghost use Rattle.tow_host.specs.Logs.{line_told, memory_log};

use crate::{LogSink, Put};
use std::alloc::{AllocError, Global};
use std::marker::Model;
use tow_link::CallNumbers;
use tow_model::{Bytes, Line};

/// A log that keeps its lines, and tells them.
#[derive(Drop)]
pub struct MemoryLog {
    lines: Vec<Line>,
    failing: CallNumbers,
    // the connections whose lines were refused, one for each
    refused: Vec<u32>,
    // how many more lines were refused
    unnoted: u64,
}

impl Model for MemoryLog {
    ghost use Rattle.tow_host.specs.Logs.{MemoryLogData};

    ghost Value = { MemoryLogData };

    ghost view = { λ log. record {
      refused = log.refused.items;
      unnoted = log.unnoted;
      lines = log.lines.items;
    } };
}

impl MemoryLog {
    /// An empty log. The puts of these numbers, from 0, fail; so does one that finds no memory.
    pub fn new(alloc: Global, failing: Vec<u64>) -> Self
        ensures { result ≡ record { refused = []; unnoted = 0; lines = [] } }
    {
        MemoryLog {
            lines: Vec::new(alloc),
            failing: CallNumbers::new(failing),
            refused: Vec::new(alloc),
            unnoted: 0,
        }
    }

    /// The lines that were stored, in their order.
    pub fn lines(&self) -> &[Line]
        ensures { result.now ≡ self.now.lines }
    {
        &self.lines
    }

    /// The connections whose lines it has refused, one for each, in their order.
    pub fn refused(&self) -> &[u32]
        ensures { result.now ≡ self.now.refused }
    {
        &self.refused
    }

    /// How many more lines it has refused without memory to note the connection, which counts for
    /// every connection. The count stands still at its last value.
    pub fn unnoted(&self) -> u64
        ensures { result ≡ self.now.unnoted }
    {
        self.unnoted
    }
}

impl LogSink for MemoryLog {
    ghost shows = { memory_log };

    fn put(&mut self, k: u32, j: u32, number: u32, line: &[u8]) -> Put {
        if self.failing.next_is_listed()
            || append_line(&mut self.lines, k, j, number, line).is_err()
        {
            if self.refused.push(k).is_err() {
                self.unnoted = self.unnoted.saturating_add(1);
            }
            return Put::Failed;
        }
        Put::Stored
    }
}

/// Adds a line at the end. Takes memory for it; without, the lines stay.
fn append_line(
    lines: &mut Vec<Line>,
    k: u32,
    j: u32,
    number: u32,
    line: &[u8],
) -> Result<(), AllocError>
    ensures ok { OnOk result (lines.new.items
        ≡ lines.old.items ++ line_told k j number line.now ∷ []) }
    ensures err { OnErr result (lines.new.items ≡ lines.old.items) }
{
    let text = Bytes::from_slice(*lines.allocator(), line)?;
    lines.push(Line {
        connection: k,
        request: j,
        number,
        text,
    })?;
    Ok(())
}
