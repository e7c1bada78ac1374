//! `header`: writes a template's value into a response field.

ghost use Rattle.std.specs.Prelude.{◌<◌};
ghost use Rattle.tow_model.specs.Dates.{first_undated};
ghost use Rattle.tow_semantics.specs.Values.{value_of};
ghost use Rattle.tow_effect.specs.Writes.{Writes, headed};

use crate::outcome::Assign;
use crate::response_field::{write_field, write_more};
use std::alloc::Global;
use tow_attr::value;
use tow_model::{Bytes, Record, Request, Template};

/// Sets the response field to the template's value, or adds the value to those of its name. Takes memory for the value and
/// the field.
pub(crate) fn header(
    alloc: Global,
    name: &Bytes,
    template: &Template,
    replace: bool,
    request: &Request,
    exchange: &mut Record,
    moment: u64,
) -> Assign
    requires { moment < first_undated }
    ensures { let text = value_of template.now request.now exchange.old moment in
        Writes (headed replace name.now text exchange.old) result exchange.old exchange.new }
{
    match value(alloc, template, request, exchange, moment) {
        Ok(text) if replace => write_field(alloc, name.as_slice(), text, exchange),
        Ok(text) => write_more(alloc, name.as_slice(), text, exchange),
        Err(_) => Assign::NoMemory,
    }
}
