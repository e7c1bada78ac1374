//! The path, and the query that a value may have after it.

ghost use Rattle.std.specs.Prelude.{◌≡◌, IfOk, OnOk, OnErr, Some};
ghost use Rattle.tow_model.specs.Paths.{resolved, rooted};
ghost use Rattle.tow_model.specs.declared.action.Target.TheVariants.{RelativePath};
ghost use Rattle.tow_semantics.specs.Writing.{assigned};

use std::alloc::Global;
use tow_model::{Bytes, NoMemory, Record};
use tow_path::resolve;
use tow_text::{cut, rooted_copy};

/// Writes the path before the value's first `?`, resolved, and the query after it, if there is a `?`. Takes memory for both.
pub(crate) fn write_path(alloc: Global, value: &[u8], exchange: &mut Record) -> Result<(), NoMemory>
    ensures ok { OnOk result (assigned RelativePath value.now exchange.old ≡ Some exchange.new) }
    ensures err { OnErr result (exchange.new ≡ exchange.old) }
{
    let (path, query) = cut(b'?', value);
    let path = rooted_path(alloc, path)?;
    if let Some(query) = query {
        exchange.query = Some(Bytes::from_slice(alloc, query)?);
    }
    exchange.path = path;
    Ok(())
}

/// The path with a leading `/`, resolved. Takes memory for it, and for a copy if the `/` is missing.
fn rooted_path(alloc: Global, path: &[u8]) -> Result<Bytes, NoMemory>
    ensures { IfOk result (λ p. p ≡ resolved (rooted path.now)) }
{
    if path.starts_with(b"/") {
        return resolve(alloc, path);
    }
    let rooted = rooted_copy(alloc, path)?;
    resolve(alloc, rooted.as_slice())
}
