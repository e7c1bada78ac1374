ghost use Rattle.std.specs.Prelude.{◌≡◌, ◌++◌, OnOk, map, flat_map, codes};
ghost use Rattle.tow_language.specs.Printed.{printed_statement, printed_block, print_of};

use super::actions::put_action;
use super::predicates::{Site, put_predicate};
use std::alloc::AllocError;
use tow_model::Statement;

/// Appends each outermost statement and a line end.
pub fn put_tree(text: &mut Vec<u8>, tree: &[Statement]) -> Result<(), AllocError>
    ensures { OnOk result (text.new.items ≡ text.old.items ++ print_of tree.now) }
{
    for statement in tree {
        put_statement(text, statement)?;
        text.push(b'\n')?;
    }
    Ok(())
}

#[cycle(put)]
fn put_statement(text: &mut Vec<u8>, statement: &Statement) -> Result<(), AllocError>
    ensures { OnOk result (text.new.items ≡ text.old.items ++ printed_statement statement.now) }
{
    match statement {
        Statement::When { test, yes, other } => {
            put_predicate(text, test, Site::Whole)?;
            text.extend_from_slice(b" -> ")?;
            put_statement(text, yes.get())?;
            if let Some(other) = other {
                text.extend_from_slice(b" else ")?;
                put_statement(text, other.get())?;
            }
            Ok(())
        }
        Statement::Act(action) => put_action(text, action),
        Statement::Block(parts) => put_block(text, parts.as_slice()),
    }
}

#[cycle(put)]
fn put_block(text: &mut Vec<u8>, parts: &[Statement]) -> Result<(), AllocError>
    ensures { OnOk result (text.new.items
        ≡ text.old.items ++ printed_block (map printed_statement parts.now)) }
{
    text.extend_from_slice(b"{")?;
    let mut between: &[u8] = b" ";
    for part in parts {
        text.extend_from_slice(between)?;
        put_statement(text, part)?;
        between = b"; ";
    }
    text.extend_from_slice(b" }")?;
    Ok(())
}
