//! The instructions of statements.

ghost use Rattle.std.specs.Prelude.{◌≡◌, ◌++◌, ◌∷◌, [], OnOk, map};
ghost use Rattle.tow_program.specs.Programs.{conditional, instructions_of, joined};
ghost use Rattle.std.specs.Prelude.{option_map};

use crate::backwards::Backwards;
use crate::conditions::put_predicate;
use crate::instruction::Instruction;
use sqlite_items::{Boxed, Items};
use tow_model::{NoMemory, Predicate, Statement};

/// Puts the instructions of a statement before the others. Takes memory.
#[cycle(put)]
fn put_statement(program: &mut Backwards, statement: Statement) -> Result<(), NoMemory>
    ensures { OnOk result (program.new ≡ instructions_of statement ++ program.old) }
{
    match statement {
        Statement::When { test, yes, other } => put_condition(program, test, yes, other),
        Statement::Act(action) => {
            program.put(Instruction::Do(action))?;
            Ok(())
        }
        Statement::Block(parts) => put_all(program, parts),
    }
}

/// Puts the instructions of a condition and of its parts before the others. Takes memory.
#[cycle(put)]
fn put_condition(
    program: &mut Backwards,
    test: Predicate,
    yes: Boxed<Statement>,
    other: Option<Boxed<Statement>>,
) -> Result<(), NoMemory>
    ensures { OnOk result (program.new
        ≡ conditional test (instructions_of yes) (option_map instructions_of other) ++ program.old) }
{
    let past = match other {
        Some(other) => {
            let behind = program.len();
            put_statement(program, other.into_inner())?;
            program.put(Instruction::Skip(program.len() - behind))?;
            1
        }
        None => 0,
    };
    let behind = program.len();
    put_statement(program, yes.into_inner())?;
    let fails = past + (program.len() - behind);
    put_predicate(program, test, 0, fails)
}

/// Puts the instructions of statements before the others, those of the last statement first. Takes memory.
#[cycle(put)]
pub(crate) fn put_all(program: &mut Backwards, statements: Items<Statement>) -> Result<(), NoMemory>
    ensures { OnOk result (program.new ≡ joined (map instructions_of statements) ++ program.old) }
{
    let mut left = statements;
    while let Some(statement) = left.pop() {
        put_statement(program, statement)?;
    }
    Ok(())
}
