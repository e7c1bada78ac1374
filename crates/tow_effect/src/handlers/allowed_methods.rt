//! `allowed-methods`: answers 405 to every other method (RFC 9110, section 15.5.6).

ghost use Rattle.std.specs.Prelude.{◌≡◌, IfOk, OnOk, OnErr};
ghost use Rattle.tow_semantics.specs.Effects.{not_allowed};
ghost use Rattle.tow_semantics.specs.Values as model;

use crate::answers::answer;
use std::alloc::{AllocError, Global};
use tow_model::{Bytes, NoMemory, Record};
use tow_text::set_field;

/// Answers 405 with the methods that are allowed. Takes memory for the field.
pub(crate) fn refuse_method(
    alloc: Global,
    methods: &[Bytes],
    exchange: &mut Record,
) -> Result<(), NoMemory>
    ensures ok { OnOk result (exchange.new ≡ not_allowed methods.now exchange.old) }
    ensures err { OnErr result (exchange.new ≡ exchange.old) }
{
    let methods = joined(alloc, methods)?;
    set_field(alloc, &mut exchange.fields, b"allow", methods)?;
    answer(405, exchange);
    Ok(())
}

/// The methods with `, ` between them (RFC 9110, section 10.2.1). Takes memory for the text.
fn joined(alloc: Global, methods: &[Bytes]) -> Result<Bytes, AllocError>
    ensures { IfOk result (λ b. b ≡ model.joined methods.now) }
{
    let Some((first, others)) = methods.split_first() else {
        return Ok(Bytes::from_vec(Vec::new(alloc)));
    };
    let mut text = Vec::from_slice(alloc, first.as_slice())?;
    for method in others {
        text.extend_from_slice(b", ")?;
        text.extend_from_slice(method.as_slice())?;
    }
    Ok(Bytes::from_vec(text))
}
