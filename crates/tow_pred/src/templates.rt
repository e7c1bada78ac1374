//! Tests of a value against a path template.

ghost use Rattle.std.specs.Prelude.{◌≡◌, ◌<◌, IfOk};
ghost use Rattle.tow_model.specs.Dates.{first_undated};
ghost use Rattle.tow_model.specs.Paths.{template_bindings};
ghost use Rattle.tow_semantics.specs.Values.{value_of};

use std::alloc::Global;
use tow_attr::value;
use tow_model::{Field, List, NoMemory, Record, Request, Segment, Template};
use tow_path::{Bind, template_bind};

/// What the template's value binds of the parts, where it fits them. Takes memory for the value and the bindings.
pub(crate) fn bind_parts(
    alloc: Global,
    parts: &[Segment],
    template: &Template,
    request: &Request,
    state: &Record,
    moment: u64,
) -> Result<Option<List<Field>>, NoMemory>
    requires dated { moment < first_undated }
    ensures { IfOk result (λ bindings.
        bindings
        ≡ template_bindings parts.now (value_of template.now request.now state.now moment)) }
{
    let text = value(alloc, template, request, state, moment)?;
    match template_bind(alloc, parts, text.as_slice()) {
        Bind::Yes(bindings) => Ok(Some(bindings)),
        Bind::No => Ok(None),
        Bind::NoMemory => Err(NoMemory),
    }
}
