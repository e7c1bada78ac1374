//! The response fields that a text makes, under its rules.

ghost use Rattle.std.specs.Prelude.{◌≡◌, ◌++◌, ◌∷◌, [], length, not};
ghost use Rattle.tow_model.specs.Fields.{field, set_to, without};
ghost use Rattle.tow_model.specs.Texts.{Text};
ghost use Rattle.tow_semantics.specs.Writing.{is_room, with_fields};
ghost use Rattle.tow_effect.specs.Writes.{Writes};

use crate::outcome::Assign;
use httparse::is_header_value;
use std::alloc::Global;
use tow_model::limits::MAX_RESPONSE_FIELDS;
use tow_model::{Bytes, Field, Record};
use tow_text::{add_field, has_name, set_field};

/// Sets the response field to the one value. Takes memory for its name and its place.
pub(crate) fn write_field(alloc: Global, name: &[u8], value: Bytes, exchange: &mut Record) -> Assign
    ensures { Writes (with_fields value (set_to name.now value exchange.old.fields) exchange.old)
        result exchange.old exchange.new }
{
    if is_full(exchange.fields.as_slice(), name) || !is_header_value(value.as_slice()) {
        return Assign::BadValue;
    }
    match set_field(alloc, &mut exchange.fields, name, value) {
        Ok(()) => Assign::Assigned,
        Err(_) => Assign::NoMemory,
    }
}

/// Adds a response field with the value. Takes memory for its name and its place.
pub(crate) fn write_more(alloc: Global, name: &[u8], value: Bytes, exchange: &mut Record) -> Assign
    ensures { Writes (with_fields value (exchange.old.fields
        ++ field name.now value ∷ []) exchange.old) result exchange.old exchange.new }
{
    if exchange.fields.len() >= MAX_RESPONSE_FIELDS || !is_header_value(value.as_slice()) {
        return Assign::BadValue;
    }
    match add_field(alloc, &mut exchange.fields, name, value) {
        Ok(()) => Assign::Assigned,
        Err(_) => Assign::NoMemory,
    }
}

/// Whether there is no room for one more field, and none of the name gives its place.
fn is_full(fields: &[Field], name: &[u8]) -> bool
    ensures { (value : Text)
        → result ≡ not (is_room fields.now (set_to name.now value fields.now)) }
{
    fields.len() >= MAX_RESPONSE_FIELDS && others_count(fields, name) == fields.len()
}

/// How many fields have another name.
fn others_count(fields: &[Field], name: &[u8]) -> usize
    ensures { result ≡ length (without name.now fields.now) }
{
    fields.iter().filter(|field| !has_name(field, name)).count()
}
