//! The order of an answer's fields.

ghost use Rattle.std.specs.Prelude.{◌≡◌, ◌≤◌, IfOk, OnOk, insert, length};
ghost use Rattle.tow_wire.specs.Answers.{placed, sorted};
ghost use Rattle.tow_model.specs.Lists.{bytes_le};

use std::alloc::{AllocError, Global};
use tow_model::{Field, List};

/// The fields sorted by name in the order of bytes; those of one name keep their order. Takes memory for a list of them.
pub(crate) fn sorted(alloc: Global, mut fields: Vec<Field>) -> Result<List<Field>, AllocError>
    ensures { IfOk result (λ s. s ≡ sorted fields.items) }
{
    // The last field is placed first, and each one before those of its own name: so these keep their order.
    let mut placed = Vec::with_capacity(alloc, fields.len())?;
    while let Some(field) = fields.pop() {
        place(&mut placed, field)?;
    }
    Ok(List::from_vec(placed))
}

/// Puts a field in its place among sorted ones, before those of its own name.
fn place(fields: &mut Vec<Field>, field: Field) -> Result<(), AllocError>
    ensures { OnOk result (fields.new.items ≡ placed field fields.old.items) }
{
    let place = place_of(fields, &field);
    fields.insert(place, field)?;
    Ok(())
}

/// How many of the fields stand before the place of this one.
fn place_of(fields: &[Field], field: &Field) -> usize
    ensures within { result ≤ length fields.now }
    ensures place { placed field.now fields.now ≡ insert fields.now result field.now }
{
    for (place, other) in fields.iter().enumerate() {
        if stands_before(field, other) {
            return place;
        }
    }
    fields.len()
}

/// Whether the first name comes before the second in the order of bytes, or is the same.
fn stands_before(first: &Field, second: &Field) -> bool
    ensures { result ≡ bytes_le first.now.name second.now.name }
{
    first.name.as_slice() <= second.name.as_slice()
}
