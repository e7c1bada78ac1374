//! The programs of small texts, instruction by instruction.

mod skips;

use crate::{Instruction, program_of};
use sqlite_items::{Boxed, Items};
use std::alloc::{AllocError, Global};
use std::test::Fail;
use tow_model::{Action, Bytes, List, Predicate, Statement, Test, Tree};

/// A text in words, each after the words that it joins, and its program. In words, a letter is a test of the path of that
/// name, and `done` an action. In programs, `a13` is the test `a`, which passes over one instruction where it holds and
/// over three where it fails; `!` is an action, and `>2` passes over two instructions.
type Row = (&'static [&'static str], &'static str);

const ROWS: &[Row] = &[
    (&[], ""),
    (&["done"], "!"),
    (&["done", "done"], "!!"),
    (&["a", "done", "when"], "a01!"),
    (&["a", "done", "done", "else"], "a02!>1!"),
    (&["a", "not", "done", "when"], "a10!"),
    (&["a", "b", "and", "done", "when"], "a02b01!"),
    (&["a", "b", "or", "done", "when"], "a10b01!"),
    (&["a", "b", "and", "not", "done", "when"], "a01b10!"),
    (&["a", "b", "or", "not", "done", "when"], "a20b10!"),
    (&["a", "b", "and", "c", "and", "done", "when"], "a03b02c01!"),
    (&["a", "b", "c", "and", "and", "done", "when"], "a03b02c01!"),
    (&["a", "b", "or", "c", "or", "done", "when"], "a20b10c01!"),
    (&["a", "b", "and", "c", "or", "done", "when"], "a01b10c01!"),
    (&["a", "b", "or", "c", "and", "done", "when"], "a10b02c01!"),
    (&["a", "b", "and", "done", "done", "else"], "a03b02!>1!"),
    (&["done", "done", "block"], "!!"),
    (&["a", "done", "done", "block", "when"], "a02!!"),
    (&["a", "done", "when", "done", "block"], "a01!!"),
    (&["a", "b", "done", "when", "when"], "a02b01!"),
    (
        &["a", "b", "done", "done", "else", "done", "else"],
        "a05b02!>1!>1!",
    ),
];

/// The predicates and the statements that the words so far make.
#[derive(Drop)]
struct Words {
    predicates: Vec<Predicate>,
    statements: Vec<Statement>,
}

impl Words {
    /// Takes the next word. One that lacks what it joins changes nothing more.
    fn take(&mut self, alloc: Global, word: &'static str) -> Result<(), AllocError> {
        match word {
            "not" => self.negate(alloc),
            "and" | "or" => self.join(alloc, word == "and"),
            "done" => {
                self.statements.push(Statement::Act(Action::Done))?;
                Ok(())
            }
            "when" => self.condition(alloc, None),
            "else" => {
                let other = self.statements.pop();
                self.condition(alloc, other)
            }
            "block" => self.block(alloc),
            name => {
                let mut paths = List::new(alloc);
                paths.push(Bytes::from_slice(alloc, name.as_bytes())?)?;
                self.predicates.push(Predicate::Is(Test::Path(paths)))?;
                Ok(())
            }
        }
    }

    fn negate(&mut self, alloc: Global) -> Result<(), AllocError> {
        if let Some(negated) = self.predicates.pop() {
            self.predicates
                .push(Predicate::Not(Boxed::new(alloc, negated)?))?;
        }
        Ok(())
    }

    fn join(&mut self, alloc: Global, both: bool) -> Result<(), AllocError> {
        if let (Some(right), Some(left)) = (self.predicates.pop(), self.predicates.pop()) {
            let (left, right) = (Boxed::new(alloc, left)?, Boxed::new(alloc, right)?);
            self.predicates.push(if both {
                Predicate::And(left, right)
            } else {
                Predicate::Or(left, right)
            })?;
        }
        Ok(())
    }

    fn condition(&mut self, alloc: Global, other: Option<Statement>) -> Result<(), AllocError> {
        if let (Some(yes), Some(test)) = (self.statements.pop(), self.predicates.pop()) {
            let other = match other {
                Some(other) => Some(Boxed::new(alloc, other)?),
                None => None,
            };
            self.statements.push(Statement::When {
                test,
                yes: Boxed::new(alloc, yes)?,
                other,
            })?;
        }
        Ok(())
    }

    fn block(&mut self, alloc: Global) -> Result<(), AllocError> {
        if let (Some(second), Some(first)) = (self.statements.pop(), self.statements.pop()) {
            let mut parts = Items::new(alloc);
            parts.push(first)?;
            parts.push(second)?;
            self.statements.push(Statement::Block(parts))?;
        }
        Ok(())
    }
}

fn tree_of(alloc: Global, words: &[&'static str]) -> Result<Tree, AllocError> {
    let mut read = Words {
        predicates: Vec::new(alloc),
        statements: Vec::new(alloc),
    };
    for word in words {
        read.take(alloc, word)?;
    }
    Ok(Items::from_vec(read.statements))
}

fn digit(number: usize) -> u8 {
    if number < 10 {
        b'0' + number as u8
    } else {
        b'+'
    }
}

/// Writes an instruction as the rows show it.
fn show(shown: &mut Vec<u8>, instruction: &Instruction) -> Result<(), AllocError> {
    match instruction {
        Instruction::Ask { test, holds, fails } => {
            if let Test::Path(paths) = test {
                for path in paths.as_slice() {
                    shown.extend_from_slice(path.as_slice())?;
                }
            }
            shown.push(digit(*holds))?;
            shown.push(digit(*fails))?;
        }
        Instruction::Do(_) => shown.push(b'!')?,
        Instruction::Skip(passed) => {
            shown.push(b'>')?;
            shown.push(digit(*passed))?;
        }
    }
    Ok(())
}

#[test]
fn each_text_has_its_program(rt: HostRuntime) -> Result<(), Fail> {
    let alloc = rt.alloc();
    for (words, wanted) in ROWS {
        let program = program_of(alloc, tree_of(alloc, words)?)?;
        let mut shown = Vec::new(alloc);
        for at in 0..program.len() {
            if let Some(instruction) = program.get(at) {
                show(&mut shown, instruction)?;
            }
        }
        assert_eq!(rt; shown.as_slice(), wanted.as_bytes(), "{words:?}");
    }
    Ok(())
}
