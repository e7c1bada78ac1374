//! The printed form of a tree. Each function appends to one growing list of bytes, and no text is built before it is
//! appended.
ghost use Rattle.std.specs.Prelude.{◌≡◌, IfOk};
ghost use Rattle.tow_language.specs.Printed.{print_of};

mod actions;
mod calls;
mod endings;
mod forms;
mod long_forms;
mod predicates;
mod segments;
mod spelling;
mod statements;
mod style;
mod templates;
mod tests_of;
mod texts;

use std::alloc::Global;
use tow_model::{Bytes, NoMemory, Tree};

/// The printed form of a tree: each outermost statement and a line end. Takes memory for it.
pub fn print(alloc: Global, tree: &Tree) -> Result<Bytes, NoMemory>
    ensures exact { IfOk result (λ b. b ≡ print_of tree.now) }
{
    let mut text = Vec::new(alloc);
    statements::put_tree(&mut text, tree.as_slice())?;
    Ok(Bytes::from_vec(text))
}
