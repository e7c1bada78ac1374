//! The address of a directory (RFC 9110, section 10.2.2).

ghost use Rattle.std.specs.Prelude.{◌≡◌, IfOk};
ghost use Rattle.tow_semantics.specs.Pages as model;

use crate::escapes::{Part, append_escaped};
use std::alloc::{AllocError, Global};
use tow_model::{Bytes, Record};

/// The record's path with a `/` after it, and its query. Takes memory for it.
pub(crate) fn directory_location(alloc: Global, x: &Record) -> Result<Bytes, AllocError>
    ensures { IfOk result (λ location. location ≡ model.directory_location x.now) }
{
    let mut out = Vec::with_capacity(alloc, x.path.len().saturating_add(1))?;
    append_escaped(&mut out, Part::Path, x.path.as_slice())?;
    out.push(b'/')?;
    if let Some(query) = &x.query {
        out.push(b'?')?;
        append_escaped(&mut out, Part::Query, query.as_slice())?;
    }
    Ok(Bytes::from_vec(out))
}
