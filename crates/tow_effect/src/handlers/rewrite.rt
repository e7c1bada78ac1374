//! `rewrite`: writes a template's value as the path, and as the query if it has a `?`.

ghost use Rattle.std.specs.Prelude.{◌<◌};
ghost use Rattle.tow_model.specs.Dates.{first_undated};
ghost use Rattle.tow_semantics.specs.Values.{value_of};
ghost use Rattle.tow_semantics.specs.Writing.{assigned};
ghost use Rattle.tow_effect.specs.Writes.{Writes};

use crate::handlers::set::set;
use crate::outcome::Assign;
use std::alloc::Global;
use tow_model::{Record, Request, Target, Template};

/// Sets the path to the template's value. Takes memory for the value, the path and the query.
pub(crate) fn rewrite(
    alloc: Global,
    template: &Template,
    request: &Request,
    exchange: &mut Record,
    moment: u64,
) -> Assign
    requires { moment < first_undated }
    ensures { let text = value_of template.now request.now exchange.old moment in
        Writes (assigned Target.RelativePath text exchange.old) result exchange.old exchange.new }
{
    let path = Target::RelativePath;
    set(alloc, &path, template, request, exchange, moment)
}
