//! Path templates: segments that are fixed, and segments that bind a name.

ghost use Rattle.std.specs.Prelude.{◌≡◌, ◌++◌, IfOk, OnOk};
ghost use Rattle.tow_model.specs.Fields.{field};
ghost use Rattle.tow_model.specs.Paths.{template_bindings};
ghost use Rattle.tow_path.specs.Parts as model;
ghost use Rattle.tow_path.specs.Told.{Binds};

use std::alloc::{AllocError, Global};
use tow_model::{Bytes, Field, List, Segment};

/// What a template makes of a text.
#[derive(Debug, Drop)]
pub enum Bind {
    /// The text does not fit.
    No,
    /// The names that bind and the segments that they meet, in their order.
    Yes(List<Field>),
    NoMemory,
}

/// A binding of the name to the value.
fn bound(alloc: Global, name: &[u8], value: &[u8]) -> Result<Field, AllocError>
    ensures { IfOk result (λ f. f ≡ field name.now value.now) }
{
    let name = Bytes::from_slice(alloc, name)?;
    let value = Bytes::from_slice(alloc, value)?;
    Ok(Field { name, value })
}

/// Whether the segment is the fixed one, or is not empty where the part binds it.
fn meets(part: &Segment, segment: &[u8]) -> bool
    ensures { result ≡ model.meets part.now segment.now }
{
    match part {
        Segment::Fixed(text) => segment == text.as_slice(),
        Segment::Bind(_) => !segment.is_empty(),
    }
}

/// Adds the binding of the part, where it binds. Takes memory for it.
fn bind_part(
    alloc: Global,
    fields: &mut List<Field>,
    part: &Segment,
    segment: &[u8],
) -> Result<(), AllocError>
    ensures { OnOk result (fields.new ≡ fields.old ++ model.bindings part.now segment.now) }
{
    match part {
        Segment::Fixed(_) => Ok(()),
        Segment::Bind(name) => {
            let field = bound(alloc, name.as_slice(), segment)?;
            fields.push(field)
        }
    }
}

/// The bindings of the parts, where the text fits them.
fn bindings(
    alloc: Global,
    parts: &[Segment],
    value: &[u8],
) -> Result<Option<List<Field>>, AllocError>
    ensures { IfOk result (λ found. found ≡ template_bindings parts.now value.now) }
{
    let mut fields = List::new(alloc);
    let mut left = parts;
    for segment in value.split(|byte| *byte == b'/') {
        let Some((part, more)) = left.split_first() else {
            return Ok(None);
        };
        if !meets(part, segment) {
            return Ok(None);
        }
        bind_part(alloc, &mut fields, part, segment)?;
        left = more;
    }
    if left.is_empty() {
        Ok(Some(fields))
    } else {
        Ok(None)
    }
}

/// Binds the segments of a text, which is cut at `/`. It fits where it has as many segments as there are parts, each fixed
/// part is equal to its segment, and each name meets a segment that is not empty. Takes memory for the bindings.
pub fn template_bind(alloc: Global, parts: &[Segment], value: &[u8]) -> Bind
    ensures { Binds parts.now value.now result }
{
    match bindings(alloc, parts, value) {
        Ok(Some(fields)) => Bind::Yes(fields),
        Ok(None) => Bind::No,
        Err(_) => Bind::NoMemory,
    }
}
