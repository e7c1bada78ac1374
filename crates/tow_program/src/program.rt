//! The program of a text.

ghost use Rattle.std.specs.Prelude.{◌≡◌, ◌<◌, IfOk, OnSome, length, slice_get};
ghost use Rattle.std.specs.Option.{option_copied};
ghost use Rattle.tow_program.specs.Actions.{bounds_in, formats_in};
ghost use Rattle.tow_program.specs.Programs as programs;
ghost use Rattle.tow_program.specs.Skips.{skipped};

use crate::backwards::Backwards;
use crate::instruction::Instruction;
use crate::run::Hop;
use crate::statements::put_all;
use crate::table::Table;
use std::alloc::Global;
use std::marker::Model;
use tow_model::{Bound, List, NoMemory, Template, Tree};

/// The instructions of a text, with its access logs and its limits by their numbers. Behind the last instruction stands
/// the default handler. Contracts see the instructions.
#[derive(Drop)]
pub struct Program {
    instructions: List<Instruction>,
    // where its logs are added, in their order
    logs: List<usize>,
    limits: List<Bound>,
    table: Table,
}

impl Model for Program {
    ghost use Rattle.std.specs.Prelude.{◌≡◌, List, length};
    ghost use Rattle.tow_program.specs.Actions.{bounds_in, logs_from};
    ghost use Rattle.tow_program.specs.Tables.{AreEntered};
    ghost use Rattle.tow_program.specs.declared.instruction.Instruction.{Instruction};

    ghost Value = { List Instruction };

    ghost view = { λ p. p.instructions };

    ghost invariant = { λ p. (p.logs ≡ logs_from 0 p.instructions)
        × (p.limits ≡ bounds_in p.instructions)
        × AreEntered p.instructions (length p.instructions) p.table.runs p.table.entries.items };
}

impl Program {
    /// The program of these instructions. Takes memory to note its logs, its limits and its tests of literal paths.
    pub fn new(alloc: Global, instructions: List<Instruction>) -> Result<Program, NoMemory>
        ensures { IfOk result (λ p. p ≡ instructions) }
    {
        let mut logs = List::new(alloc);
        let mut limits = List::new(alloc);
        let mut at = 0;
        for instruction in instructions.as_slice() {
            if instruction.format().is_some() {
                logs.push(at)?;
            }
            if let Some(bound) = instruction.bound() {
                limits.push(bound)?;
            }
            at += 1;
        }
        let table = Table::new(alloc, instructions.as_slice())?;
        Ok(Program {
            instructions,
            logs,
            limits,
            table,
        })
    }

    /// The instruction at this place, from 0, if there is one. Takes no memory.
    pub fn get(&self, at: usize) -> Option<&Instruction>
        ensures value { option_copied result ≡ slice_get self.now at }
        ensures within { OnSome result (at < length self.now) }
    {
        self.instructions.get(at)
    }

    /// The first place from `at` on, along tests of literal paths alone that fail for the path, where no such test stands.
    /// Takes no memory. Costs one look-up for each run of such tests that it leaves.
    pub fn skip(&self, at: usize, path: &[u8]) -> usize
        ensures { result ≡ skipped self.now path.now at }
    {
        let mut at = at;
        loop {
            match self.table.hop(at, path) {
                Hop::Rests(place) => return place,
                Hop::Goes(place) => at = place,
            }
        }
    }

    /// How many instructions there are. Takes no memory.
    pub fn len(&self) -> usize
        ensures { result ≡ length self.now }
    {
        self.instructions.len()
    }

    /// The limits, in their order. Takes no memory.
    pub fn limits(&self) -> &List<Bound>
        ensures { result.now ≡ bounds_in self.now }
    {
        &self.limits
    }

    /// The format of the access log of this number, from 0, if there is one. Takes no memory.
    pub fn format(&self, number: usize) -> Option<&Template>
        ensures { option_copied result ≡ slice_get (formats_in self.now) number }
    {
        let at = *self.logs.get(number)?;
        self.instructions.get(at)?.format()
    }
}

/// The program of a text. Takes memory for the instructions; tests and actions are moved into them.
pub fn program_of(alloc: Global, tree: Tree) -> Result<Program, NoMemory>
    ensures { IfOk result (λ program. program ≡ programs.program_of tree) }
{
    let mut program = Backwards::new(alloc);
    put_all(&mut program, tree)?;
    Program::new(alloc, program.into_list())
}
