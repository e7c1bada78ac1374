//! The instructions of a predicate: its tests in the order of the text, each with where to go on when it holds and
//! when it does not.

ghost use Rattle.std.specs.Prelude.{◌≡◌, ◌++◌, ◌≤◌, OnOk, length};
ghost use Rattle.tow_program.specs.Programs.{asking};

use crate::backwards::Backwards;
use crate::instruction::Instruction;
use tow_model::{NoMemory, Predicate};

/// Puts the instructions of a predicate before the others, of which so many are passed over where it holds, and so many
/// where it fails. Recurs into right operands only, so that a chain of `and` or of `or` costs no stack. Takes memory.
pub(crate) fn put_predicate(
    program: &mut Backwards,
    predicate: Predicate,
    mut holds: usize,
    mut fails: usize,
) -> Result<(), NoMemory>
    requires holds { holds ≤ length program.old }
    requires fails { fails ≤ length program.old }
    ensures { OnOk result (program.new ≡ asking predicate holds fails ++ program.old) }
{
    let mut left = predicate;
    loop {
        match left {
            Predicate::Is(test) => {
                program.put(Instruction::Ask { test, holds, fails })?;
                return Ok(());
            }
            Predicate::Not(negated) => {
                left = negated.into_inner();
                (holds, fails) = (fails, holds);
            }
            Predicate::And(first, second) => {
                let behind = program.len();
                put_predicate(program, second.into_inner(), holds, fails)?;
                fails += program.len() - behind;
                holds = 0;
                left = first.into_inner();
            }
            Predicate::Or(first, second) => {
                let behind = program.len();
                put_predicate(program, second.into_inner(), holds, fails)?;
                holds += program.len() - behind;
                fails = 0;
                left = first.into_inner();
            }
        }
    }
}
