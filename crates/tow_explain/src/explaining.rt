//! What a person is told of a fault.

ghost use Rattle.std.specs.Prelude.{◌≡◌, IfOk};
ghost use Rattle.tow_explain.specs.Causes.{kind_of};
ghost use Rattle.tow_explain.specs.Pages as model;
ghost use Rattle.tow_explain.specs.declared.diagnosis.Diagnosis.{Diagnosis};

use crate::diagnose::diagnose;
use crate::line::place_of;
use crate::page::page;
use std::alloc::Global;
use tow_language::Kind;
use tow_model::{Bytes, NoMemory};

/// What a person is told of a fault of this kind at a line and a column of a text: the line with a
/// caret under the column, what is wrong there, how it is mended, and what the call takes. Line and
/// column count from 1, columns in bytes. Takes memory.
pub fn explain(
    alloc: Global,
    text: &[u8],
    kind: Kind,
    line: usize,
    column: usize,
) -> Result<Bytes, NoMemory>
    ensures { IfOk result (λ told. (d : Diagnosis) × (kind_of d.cause ≡ kind)
        × (told ≡ model.page text.now line column d)) }
{
    let diagnosis = diagnose(alloc, text, kind, place_of(text, line, column))?;
    let told = page(alloc, text, line, column, &diagnosis)?;
    Ok(Bytes::from_vec(told))
}
