ghost use Rattle.std.specs.Prelude.{◌≡◌, ◌∷◌, [], OnOk, OnErr, IfSome, IfNone, length};

use crate::goal::Goal;
use std::alloc::{AllocError, Global};
use std::marker::Model;

/// The goals of a reader, the next one first.
#[derive(Drop)]
pub struct Goals {
    items: Vec<Goal>,
}

impl Model for Goals {
    ghost use Rattle.std.specs.Prelude.{List, reverse};
    ghost use Rattle.tow_parse.specs.declared.goal.Goal.{Goal};

    ghost Value = { List Goal };

    ghost view = { λ it. reverse it.items.items };
}

impl Goals {
    /// Takes no memory.
    pub fn new(alloc: Global) -> Goals
        ensures { result ≡ [] }
    {
        Goals {
            items: Vec::new(alloc),
        }
    }

    pub fn len(&self) -> usize
        ensures { result ≡ length self.now }
    {
        self.items.len()
    }

    /// Puts a goal before the others.
    pub fn push(&mut self, goal: Goal) -> Result<(), AllocError>
        ensures ok { OnOk result (self.new ≡ goal ∷ self.old) }
    {
        self.items.push(goal)?;
        Ok(())
    }

    /// Takes the next goal.
    pub fn pop(&mut self) -> Option<Goal>
        ensures some { IfSome result (λ goal. self.old ≡ goal ∷ self.new) }
        ensures none { IfNone result (self.old ≡ []) }
    {
        self.items.pop()
    }
}
