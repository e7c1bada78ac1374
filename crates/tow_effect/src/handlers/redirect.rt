//! `redirect`: answers 302 (RFC 9110, section 15.4.3).

ghost use Rattle.std.specs.Prelude.{◌≡◌, ◌<◌, OnOk, OnErr};
ghost use Rattle.tow_model.specs.Dates.{first_undated};
ghost use Rattle.tow_model.specs.Texts.{escaped, is_visible};
ghost use Rattle.tow_semantics.specs.Effects.{redirected};
ghost use Rattle.tow_semantics.specs.Values.{value_of};

use crate::answers::answer;
use crate::location::location_of;
use std::alloc::Global;
use tow_attr::value;
use tow_model::{NoMemory, Record, Request, Template};
use tow_text::set_field;

/// Answers 302 with the template's value as the location. Takes memory for the value and the field.
pub(crate) fn redirect(
    alloc: Global,
    template: &Template,
    request: &Request,
    exchange: &mut Record,
    moment: u64,
) -> Result<(), NoMemory>
    requires { moment < first_undated }
    ensures ok { let text = value_of template.now request.now exchange.old moment in
        OnOk result (exchange.new ≡ redirected (escaped is_visible text) exchange.old) }
    ensures err { OnErr result (exchange.new ≡ exchange.old) }
{
    let text = value(alloc, template, request, exchange, moment)?;
    let location = location_of(alloc, text)?;
    set_field(alloc, &mut exchange.fields, b"location", location)?;
    answer(302, exchange);
    Ok(())
}
