//! for now: what is here only until content is served. All of it goes then.

ghost use Rattle.std.specs.Prelude.{◌≡◌};
ghost use Rattle.tow_message.specs.Heads.{is_unserved};

use tow_model::{Framing, Request, Version};
use tow_text::has_field;

/// Whether the request asks for what a connection does not serve yet, and answers with 501: content, HTTP/1.0, or fields
/// that decide on persistence or wait for leave to send content. Takes no memory.
pub(crate) fn is_unserved(request: &Request) -> bool
    ensures { result ≡ is_unserved request.now.version request.now.framing request.now.fields }
{
    !matches!(request.framing, Framing::Empty)
        || matches!(request.version, Version::V10)
        || has_field(request.fields.as_slice(), b"connection")
        || has_field(request.fields.as_slice(), b"expect")
}
