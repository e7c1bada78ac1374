//! The table of a program: for each test of literal paths, where a path leads to from it.

ghost use Rattle.std.specs.Prelude.{
  ◌≡◌,
  ◌+◌,
  ◌<◌,
  IfOk,
  None,
  OnOk,
  get_or,
  length,
  min,
  option_map,
  suc,
};
ghost use Rattle.tow_program.specs.Skips.{shown};
ghost use Rattle.tow_program.specs.Tables.{AreEntered, hop_of, unentered};

use crate::instruction::{Instruction, Literals};
use crate::run::{Hop, Rows, Run};
use std::alloc::Global;
use tow_model::{List, NoMemory};

/// Where a test stands in the runs: in which one, and its first row there.
#[derive(Clone, Copy)]
struct Entry {
    run: usize,
    row: usize,
}

/// The runs of a program, which share no test.
#[derive(Drop)]
pub(crate) struct Table {
    runs: List<Run>,
    // for each instruction its entry, if it is a test of literal paths alone
    entries: Vec<Option<Entry>>,
}

/// The place behind so many of the instructions that follow the one at `at`, or the end of so many.
fn past(count: usize, at: usize, passed: usize) -> usize
    requires { at < count }
    ensures { result ≡ min (suc at + passed) count }
{
    let behind = count - at - 1;
    if passed < behind {
        at + 1 + passed
    } else {
        count
    }
}

impl Table {
    /// The table of these instructions. Takes memory for each of them and for copies of literal paths.
    pub(crate) fn new(alloc: Global, instructions: &[Instruction]) -> Result<Table, NoMemory>
        ensures { IfOk result (λ t. AreEntered instructions.now (length instructions.now)
            t.runs t.entries.items) }
    {
        let mut table = Table {
            runs: List::new(alloc),
            entries: vec![in alloc; None; instructions.len()]?,
        };
        for start in 0..instructions.len() {
            if table.unentered(instructions, start).is_some() {
                table.put_run(alloc, instructions, start)?;
            }
        }
        Ok(table)
    }

    /// Where the path leads to from the instruction at this place. Takes no memory.
    pub(crate) fn hop(&self, at: usize, path: &[u8]) -> Hop
        ensures { result ≡ hop_of self.now.runs self.now.entries.items path.now at }
    {
        match self.entry(at) {
            None => Hop::Rests(at),
            Some(entry) => match self.runs.get(entry.run) {
                None => Hop::Rests(at),
                Some(run) => run.hop(path, entry.row),
            },
        }
    }

    /// The entry of the instruction at this place, if it has one. Takes no memory.
    fn entry(&self, at: usize) -> Option<Entry>
        ensures { result ≡ get_or self.now.entries.items at None }
    {
        match self.entries.get(at) {
            Some(entry) => *entry,
            None => None,
        }
    }

    /// The test of literal paths at this place, if it is one that has no entry. Takes no memory.
    fn unentered<'a>(&self, instructions: &'a [Instruction], at: usize) -> Option<Literals<'a>>
        ensures { option_map shown result
            ≡ unentered instructions.now self.now.entries.items at }
    {
        match self.entry(at) {
            Some(_) => None,
            None => match instructions.get(at) {
                Some(instruction) => instruction.literals(),
                None => None,
            },
        }
    }

    /// Puts the run from the place `start` on, as far as its tests have no entry. Takes memory.
    fn put_run(
        &mut self,
        alloc: Global,
        instructions: &[Instruction],
        start: usize,
    ) -> Result<(), NoMemory>
        requires { AreEntered instructions.now start self.old.runs self.old.entries.items }
        ensures { OnOk result (AreEntered instructions.now (start + 1)
            self.new.runs self.new.entries.items) }
    {
        let mut rows = Rows::new(alloc);
        let mut at = start;
        while let Some(literals) = self.unentered(instructions, at) {
            self.entries[at] = Some(Entry {
                run: self.runs.len(),
                row: rows.len(),
            });
            rows.put(alloc, literals.paths, literals.prefix, at)?;
            at = past(instructions.len(), at, literals.fails);
        }
        self.runs.push(rows.into_run(alloc, at)?)?;
        Ok(())
    }
}
