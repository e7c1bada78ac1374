//! The regex tests of a tree, in the order of the text.

ghost use Rattle.std.specs.Prelude.{◌≡◌, ◌++◌, OnOk};
ghost use Rattle.tow_semantics.specs.Predicates.{pattern_of, patterns_in};
ghost use Rattle.tow_pred.specs.Found.{told};
ghost use Rattle.tow_pred.specs.Numbering.{statement_patterns, tree_patterns};

use std::alloc::AllocError;
use tow_model::{Predicate, Statement, Test};

/// A regex test of a tree.
#[derive(Clone, Copy)]
pub(crate) struct Found<'t> {
    pub(crate) number: u32,
    pub(crate) pattern: &'t [u8],
}

/// Adds the test, where it is one of `regex`.
fn find_in_test<'t>(found: &mut Vec<Found<'t>>, test: &'t Test) -> Result<(), AllocError>
    ensures { OnOk result (told found.new.items ≡ told found.old.items ++ pattern_of test.now) }
{
    if let Test::Regex {
        number,
        pattern,
        ..
    } = test
    {
        found.push(Found {
            number: *number,
            pattern: pattern.as_slice(),
        })?;
    }
    Ok(())
}

/// Adds the tests of a predicate from the left to the right.
fn find_in_predicate<'t>(
    found: &mut Vec<Found<'t>>,
    predicate: &'t Predicate,
) -> Result<(), AllocError>
    ensures { OnOk result (told found.new.items
        ≡ told found.old.items ++ patterns_in predicate.now) }
{
    match predicate {
        Predicate::Is(test) => find_in_test(found, test),
        Predicate::Not(negated) => find_in_predicate(found, negated.get()),
        Predicate::And(left, right) | Predicate::Or(left, right) => {
            find_in_predicate(found, left.get())?;
            find_in_predicate(found, right.get())
        }
    }
}

/// Adds the tests of a statement: those of its predicate, of its target and of its else part.
#[cycle(find)]
fn find_in_statement<'t>(
    found: &mut Vec<Found<'t>>,
    statement: &'t Statement,
) -> Result<(), AllocError>
    ensures { OnOk result (told found.new.items
        ≡ told found.old.items ++ statement_patterns statement.now) }
{
    match statement {
        Statement::When { test, yes, other } => {
            find_in_predicate(found, test)?;
            find_in_statement(found, yes.get())?;
            match other {
                Some(other) => find_in_statement(found, other.get()),
                None => Ok(()),
            }
        }
        Statement::Act(_) => Ok(()),
        Statement::Block(parts) => find_in_tree(found, parts.as_slice()),
    }
}

/// Adds the tests of each statement. Takes memory for their places.
#[cycle(find)]
pub(crate) fn find_in_tree<'t>(
    found: &mut Vec<Found<'t>>,
    statements: &'t [Statement],
) -> Result<(), AllocError>
    ensures { OnOk result (told found.new.items
        ≡ told found.old.items ++ tree_patterns statements.now) }
{
    for statement in statements {
        find_in_statement(found, statement)?;
    }
    Ok(())
}
