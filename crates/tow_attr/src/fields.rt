//! The values of fields, and of the context's bindings.

ghost use Rattle.std.specs.Prelude.{◌≡◌, ◌++◌, Bool, OnOk, codes, find, if◌then◌else◌};
ghost use Rattle.std.specs.Option.{option_copied};
ghost use Rattle.std.specs.Str.{bytes_eq};
ghost use Rattle.tow_model.specs.Fields.{bound_to, is_named, values_of};
ghost use Rattle.tow_semantics.specs.Values.{joined, or_empty};

use std::alloc::AllocError;
use tow_model::{Bytes, Field, List};

/// Whether a field has the name, in any case (RFC 9110, section 5.1).
pub(crate) fn has_name(field: &Field, name: &[u8]) -> bool
    ensures { result ≡ is_named name.now field.now }
{
    field.name.as_slice().eq_ignore_ascii_case(name)
}

/// Writes the values of all fields of the name, in their order, with `, ` between them (RFC 9110, section 5.2). Takes memory
/// for what is written.
pub(crate) fn append_values(
    out: &mut Vec<u8>,
    fields: &List<Field>,
    name: &Bytes,
) -> Result<(), AllocError>
    ensures { OnOk result (out.new.items
        ≡ out.old.items ++ joined (values_of name.now fields.now)) }
{
    let mut is_first = true;
    for field in fields.as_slice() {
        if has_name(field, name.as_slice()) {
            append_value(out, field, is_first)?;
            is_first = false;
        }
    }
    Ok(())
}

/// Writes a field's value, behind a comma where it is not the first.
fn append_value(out: &mut Vec<u8>, field: &Field, is_first: bool) -> Result<(), AllocError>
    ensures { OnOk result (out.new.items
        ≡ out.old.items ++ (if is_first then field.now.value else codes ", " ++ field.now.value)) }
{
    if !is_first {
        out.extend_from_slice(b", ")?;
    }
    out.extend_from_slice(field.value.as_slice())
}

/// Writes the value to which the name is bound, where it is. Takes memory for the value alone.
pub(crate) fn append_binding(
    out: &mut Vec<u8>,
    context: &List<Field>,
    name: &Bytes,
) -> Result<(), AllocError>
    ensures { OnOk result (out.new.items
        ≡ out.old.items ++ or_empty (bound_to name.now context.now)) }
{
    match first_binding(context.as_slice(), name.as_slice()) {
        Some(binding) => out.extend_from_slice(binding.value.as_slice()),
        None => Ok(()),
    }
}

/// The first binding of the name, exactly as it is written.
fn first_binding<'a>(context: &'a [Field], name: &[u8]) -> Option<&'a Field>
    ensures { option_copied result ≡ find (λ f. bytes_eq f.name name.now) context.now }
{
    context
        .iter()
        .find(|binding| binding.name.as_slice() == name)
}
