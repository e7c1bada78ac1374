//! What a test binds in a context.

ghost use Rattle.std.specs.Prelude.{◌≡◌, OnOk, fold};
ghost use Rattle.tow_model.specs.Fields as fields;

use std::alloc::{AllocError, Global};
use tow_model::{Field, List};
use tow_text::bind;

/// Adds each binding, in their order. Takes memory for their places.
pub(crate) fn bind_all(
    alloc: Global,
    context: &mut List<Field>,
    bindings: List<Field>,
) -> Result<(), AllocError>
    ensures { OnOk result (context.new ≡ fold (λ all f. fields.bind f all) context.old bindings) }
{
    for binding in bindings.into_vec() {
        bind(alloc, context, binding)?;
    }
    Ok(())
}
