//! Values written into targets.

ghost use Rattle.std.specs.Prelude.{◌≡◌, ◌≢◌, false, Some, None, OnOk, OnErr, if◌then◌else◌};
ghost use Rattle.tow_model.specs.Fields as fields;
ghost use Rattle.std.specs.Result.{is_ok};
ghost use Rattle.tow_semantics.specs.Writing.{assigned};
ghost use Rattle.tow_effect.specs.Memory.{target_takes_memory};

use crate::outcome::Assign;
use crate::path::write_path;
use crate::query::query_of;
use crate::response_field::write_field;
use crate::status::write_status;
use std::alloc::Global;
use tow_model::{Bytes, Field, List, NoMemory, Record, Target};
use tow_text::{bind, field_with};

/// Writes a value in its target's place. A path is cut at the value's first `?`, gets a leading `/` and is resolved (RFC 3986,
/// section 5.2.4), and what follows the `?` becomes the query; a query loses a leading `?`, and an empty value removes it; a
/// status is three digits, 200 to 599 other than 205; a response field has no control byte but TAB in its value (RFC 9110,
/// section 5.5), and none is added to 256 or more; a name of the context is bound. Takes memory for the path, the query after
/// it, the field or the binding, and for nothing else.
pub fn assign(alloc: Global, target: &Target, value: Bytes, exchange: &mut Record) -> Assign
    ensures assigned { result ≡ Assign.Assigned
        → assigned target.now value exchange.old ≡ Some exchange.new }
    ensures bad { result ≡ Assign.BadValue → assigned target.now value exchange.old ≡ None }
    ensures unchanged { result ≢ Assign.Assigned → exchange.new ≡ exchange.old }
    ensures plain { target_takes_memory target.now ≡ false → result ≢ Assign.NoMemory }
{
    match target {
        Target::RelativePath => assigned_if(write_path(alloc, value.as_slice(), exchange)),
        Target::Query => {
            exchange.query = query_of(value);
            Assign::Assigned
        }
        Target::Status => write_status(value.as_slice(), exchange),
        Target::ResponseField(name) => write_field(alloc, name.as_slice(), value, exchange),
        Target::Context(name) => assigned_if(bind_value(
            alloc,
            &mut exchange.context,
            name.as_slice(),
            value,
        )),
    }
}

/// The value is written, unless memory was short.
fn assigned_if(done: Result<(), NoMemory>) -> Assign
    ensures { result ≡ (if is_ok done then Assign.Assigned else Assign.NoMemory) }
{
    match done {
        Ok(()) => Assign::Assigned,
        Err(NoMemory) => Assign::NoMemory,
    }
}

/// Binds a copy of the name to the value, after the other bindings. Takes memory for the name and the place.
fn bind_value(
    alloc: Global,
    context: &mut List<Field>,
    name: &[u8],
    value: Bytes,
) -> Result<(), NoMemory>
    ensures ok { OnOk result (context.new ≡ fields.bind (fields.field name.now value) context.old) }
    ensures err { OnErr result (context.new ≡ context.old) }
{
    let binding = field_with(alloc, name, value)?;
    bind(alloc, context, binding)?;
    Ok(())
}
