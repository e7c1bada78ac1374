//! `set`: writes a template's value into a target.

ghost use Rattle.std.specs.Prelude.{◌<◌};
ghost use Rattle.tow_model.specs.Dates.{first_undated};
ghost use Rattle.tow_semantics.specs.Values.{value_of};
ghost use Rattle.tow_semantics.specs.Writing.{assigned};
ghost use Rattle.tow_effect.specs.Writes.{Writes};

use crate::outcome::Assign;
use crate::targets::assign;
use std::alloc::Global;
use tow_attr::value;
use tow_model::{Record, Request, Target, Template};

/// Writes the template's value into the target. Takes memory for the value, and for what holds it.
pub(crate) fn set(
    alloc: Global,
    target: &Target,
    template: &Template,
    request: &Request,
    exchange: &mut Record,
    moment: u64,
) -> Assign
    requires { moment < first_undated }
    ensures { let text = value_of template.now request.now exchange.old moment in
        Writes (assigned target.now text exchange.old) result exchange.old exchange.new }
{
    match value(alloc, template, request, exchange, moment) {
        Ok(text) => assign(alloc, target, text, exchange),
        Err(_) => Assign::NoMemory,
    }
}
