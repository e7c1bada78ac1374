//! Fields of a head and bindings of a context. Names of fields are compared in any case (RFC 9110, section 5.1), names of
//! bindings exactly.

ghost use Rattle.std.specs.Prelude.{◌≡◌, ◌≤◌, ◌<◌, ◌++◌, ◌∷◌, [], IfOk, OnOk, OnErr, vec_len};
ghost use Rattle.std.specs.Str.{str_eq_ignore_ascii_case};
ghost use Rattle.std.specs.Vec.{vec_capacity};
ghost use Rattle.tow_model.specs.Fields as model;
ghost use Rattle.tow_model.specs.Fields.{field, has, is_named, set_to, unbound, without};

use std::alloc::{AllocError, Global};
use std::mem;
use tow_model::{Bytes, Field, List};

/// Whether the text is the name of a field, in any case. Takes no memory.
pub fn is_field_name(text: &[u8], name: &[u8]) -> bool
    ensures { result ≡ str_eq_ignore_ascii_case text.now name.now }
{
    text.eq_ignore_ascii_case(name)
}

/// Whether the field has the name, in any case. Takes no memory.
pub fn has_name(field: &Field, name: &[u8]) -> bool
    ensures { result ≡ is_named name.now field.now }
{
    is_field_name(field.name.as_slice(), name)
}

/// Whether some field has the name, in any case. Takes no memory.
pub fn has_field(fields: &[Field], name: &[u8]) -> bool
    ensures { result ≡ has name.now fields.now }
{
    fields.iter().any(|field| has_name(field, name))
}

/// A field with a copy of each text. Takes memory for both.
pub fn copied_field(alloc: Global, name: &[u8], value: &[u8]) -> Result<Field, AllocError>
    ensures { IfOk result (λ f. f ≡ field name.now value.now) }
{
    let value = Bytes::from_slice(alloc, value)?;
    field_with(alloc, name, value)
}

/// A field with a copy of the name and this value. Takes memory for the name.
pub fn field_with(alloc: Global, name: &[u8], value: Bytes) -> Result<Field, AllocError>
    ensures { IfOk result (λ f. f ≡ field name.now value) }
{
    let name = Bytes::from_slice(alloc, name)?;
    Ok(Field { name, value })
}

/// Sets the field of this name to the one value, after the others. Takes memory for the name and the place; if it is short,
/// the fields stay as they were.
pub fn set_field(
    alloc: Global,
    fields: &mut List<Field>,
    name: &[u8],
    value: Bytes,
) -> Result<(), AllocError>
    ensures ok { OnOk result (fields.new ≡ set_to name.now value fields.old) }
    ensures err { OnErr result (fields.new ≡ fields.old) }
{
    let field = field_with(alloc, name, value)?;
    let mut items = with_room(alloc, fields)?;
    remove_named(&mut items, name);
    items.push_reserved(field);
    *fields = List::from_vec(items);
    Ok(())
}

/// Adds a field after the others. Takes memory for the name and the place; if it is short, the fields stay as they were.
pub fn add_field(
    alloc: Global,
    fields: &mut List<Field>,
    name: &[u8],
    value: Bytes,
) -> Result<(), AllocError>
    ensures ok { OnOk result (fields.new ≡ fields.old ++ field name.now value ∷ []) }
    ensures err { OnErr result (fields.new ≡ fields.old) }
{
    let field = field_with(alloc, name, value)?;
    fields.push(field)
}

/// Takes the fields of the name away. Takes no memory.
pub fn clear_field(alloc: Global, fields: &mut List<Field>, name: &[u8])
    ensures { fields.new ≡ without name.now fields.old }
{
    let mut items = mem::replace(fields, List::new(alloc)).into_vec();
    remove_named(&mut items, name);
    *fields = List::from_vec(items);
}

/// Adds the binding after the others, in place of one of its name. Takes memory for its place; if it is short, the context
/// stays as it was.
pub fn bind(alloc: Global, context: &mut List<Field>, binding: Field) -> Result<(), AllocError>
    ensures ok { OnOk result (context.new ≡ model.bind binding context.old) }
    ensures err { OnErr result (context.new ≡ context.old) }
{
    let mut items = with_room(alloc, context)?;
    remove_bound(&mut items, binding.name.as_slice());
    items.push_reserved(binding);
    *context = List::from_vec(items);
    Ok(())
}

/// Takes the binding of the name away. Takes no memory.
pub fn unbind(alloc: Global, context: &mut List<Field>, name: &[u8])
    ensures { context.new ≡ unbound name.now context.old }
{
    let mut items = mem::replace(context, List::new(alloc)).into_vec();
    remove_bound(&mut items, name);
    *context = List::from_vec(items);
}

/// Takes the fields out of their list, with room for one more. If memory is short they stay in it.
fn with_room(alloc: Global, fields: &mut List<Field>) -> Result<Vec<Field>, AllocError>
    ensures items { IfOk result (λ v. v.items ≡ fields.old) }
    ensures room { IfOk result (λ v. vec_len v < vec_capacity v) }
    ensures err { OnErr result (fields.new ≡ fields.old) }
{
    let mut items = mem::replace(fields, List::new(alloc)).into_vec();
    match items.reserve(1) {
        Ok(()) => Ok(items),
        Err(error) => {
            *fields = List::from_vec(items);
            Err(error)
        }
    }
}

fn remove_named(fields: &mut Vec<Field>, name: &[u8])
    ensures items { fields.new.items ≡ without name.now fields.old.items }
    ensures len { vec_len fields.new ≤ vec_len fields.old }
    ensures capacity { vec_capacity fields.new ≡ vec_capacity fields.old }
{
    fields.retain(|field| !has_name(field, name));
}

fn remove_bound(bindings: &mut Vec<Field>, name: &[u8])
    ensures items { bindings.new.items ≡ unbound name.now bindings.old.items }
    ensures len { vec_len bindings.new ≤ vec_len bindings.old }
    ensures capacity { vec_capacity bindings.new ≡ vec_capacity bindings.old }
{
    bindings.retain(|binding| binding.name.as_slice() != name);
}
