//! The query.

ghost use Rattle.std.specs.Prelude.{◌≡◌};
ghost use Rattle.tow_semantics.specs.Writing as model;

use tow_model::Bytes;

/// The query that a value writes: the value without a leading `?`, and none if the value is empty. Takes no memory.
pub(crate) fn query_of(value: Bytes) -> Option<Bytes>
    ensures { result ≡ model.written_query value }
{
    let mut bytes = value.into_vec();
    if bytes.is_empty() {
        return None;
    }
    if bytes[0] == b'?' {
        bytes.remove(0);
    }
    Some(Bytes::from_vec(bytes))
}
