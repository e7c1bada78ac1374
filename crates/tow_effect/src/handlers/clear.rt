//! `clear`: makes a target what it was at first, or takes it away.

ghost use Rattle.std.specs.Prelude.{◌≡◌, false, IsOk, OnOk, OnErr, codes};
ghost use Rattle.tow_model.specs.Texts.{is_empty};
ghost use Rattle.tow_semantics.specs.Writing.{cleared};
ghost use Rattle.tow_effect.specs.Memory.{lacks_path};

use std::alloc::Global;
use std::mem;
use tow_model::{Bytes, NoMemory, Record, Target};
use tow_text::{clear_field, unbind};

/// Sets the path to `/` or the status to 200, or removes the query, the response field or the binding. Takes memory only for
/// a path in place of an empty one.
pub(crate) fn clear(alloc: Global, target: &Target, exchange: &mut Record) -> Result<(), NoMemory>
    ensures ok { OnOk result (exchange.new ≡ cleared target.now exchange.old) }
    ensures err { OnErr result (exchange.new ≡ exchange.old) }
    ensures plain { lacks_path target.now exchange.old ≡ false → IsOk result }
{
    match target {
        Target::RelativePath => clear_path(alloc, &mut exchange.path)?,
        Target::Query => exchange.query = None,
        Target::Status => exchange.status = 200,
        Target::ResponseField(name) => clear_field(alloc, &mut exchange.fields, name.as_slice()),
        Target::Context(name) => unbind(alloc, &mut exchange.context, name.as_slice()),
    }
    Ok(())
}

/// Makes the path `/`. Takes memory only if the path is empty.
fn clear_path(alloc: Global, path: &mut Bytes) -> Result<(), NoMemory>
    ensures ok { OnOk result (path.new ≡ codes "/") }
    ensures err { OnErr result (path.new ≡ path.old) }
    ensures plain { is_empty path.old ≡ false → IsOk result }
{
    if path.len() == 0 {
        *path = Bytes::from_slice(alloc, b"/")?;
        return Ok(());
    }
    let mut bytes = mem::replace(path, Bytes::from_vec(Vec::new(alloc))).into_vec();
    bytes.truncate(1);
    bytes[0] = b'/';
    *path = Bytes::from_vec(bytes);
    Ok(())
}
