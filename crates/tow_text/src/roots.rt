//! Paths with a leading `/`.

ghost use Rattle.std.specs.Prelude.{◌≡◌, IfOk};
ghost use Rattle.tow_model.specs.Paths as model;

use std::alloc::{AllocError, Global};
use tow_model::Bytes;

/// The path with a leading `/`. Takes memory only if that is added.
pub fn rooted(path: Bytes) -> Result<Bytes, AllocError>
    ensures { IfOk result (λ b. b ≡ model.rooted path) }
{
    if path.as_slice().starts_with(b"/") {
        return Ok(path);
    }
    let mut bytes = path.into_vec();
    bytes.insert(0, b'/')?;
    Ok(Bytes::from_vec(bytes))
}

/// A copy of the path, with a leading `/`. Takes memory for it.
pub fn rooted_copy(alloc: Global, path: &[u8]) -> Result<Bytes, AllocError>
    ensures { IfOk result (λ b. b ≡ model.rooted path.now) }
{
    if path.starts_with(b"/") {
        return Bytes::from_slice(alloc, path);
    }
    let mut bytes = Vec::with_capacity(alloc, path.len().saturating_add(1))?;
    bytes.push(b'/')?;
    bytes.extend_from_slice(path)?;
    Ok(Bytes::from_vec(bytes))
}
