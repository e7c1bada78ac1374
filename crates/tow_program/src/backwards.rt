//! A program that is made from its end on.

ghost use Rattle.std.specs.Prelude.{◌≡◌, ◌∷◌, ◌<◌, [], OnOk, length};

use crate::instruction::Instruction;
use std::alloc::{AllocError, Global};
use std::marker::Model;
use tow_model::List;

/// The instructions behind the one that is put next. So each jump is known when its instruction is put.
#[derive(Drop)]
pub(crate) struct Backwards {
    put: Vec<Instruction>,
}

impl Model for Backwards {
    ghost use Rattle.std.specs.Prelude.{List, reverse};
    ghost use Rattle.tow_program.specs.declared.instruction.Instruction.{Instruction};

    ghost Value = { List Instruction };

    ghost view = { λ it. reverse it.put.items };
}

impl Backwards {
    /// No instruction. Takes no memory.
    pub(crate) fn new(alloc: Global) -> Backwards
        ensures { result ≡ [] }
    {
        Backwards {
            put: Vec::new(alloc),
        }
    }

    /// How many instructions there are.
    pub(crate) fn len(&self) -> usize
        ensures { result ≡ length self.now }
    {
        self.put.len()
    }

    /// Puts an instruction before the others. Takes memory.
    pub(crate) fn put(&mut self, instruction: Instruction) -> Result<(), AllocError>
        ensures ok { OnOk result (self.new ≡ instruction ∷ self.old) }
    {
        self.put.push(instruction)?;
        Ok(())
    }

    /// The program from its beginning. Takes no memory.
    pub(crate) fn into_list(self) -> List<Instruction>
        ensures { result ≡ self }
    {
        let Backwards { mut put } = self;
        put.reverse();
        List::from_vec(put)
    }
}
