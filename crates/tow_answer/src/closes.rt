//! Which answers are the last one of their connection (RFC 9112, section 9).

ghost use Rattle.std.specs.Prelude.{◌≡◌, ℕ, Option};
ghost use Rattle.tow_model.specs.declared.content.Content.{Content};
ghost use Rattle.tow_message.specs.Heads.{is_old};
ghost use Rattle.tow_wire.specs.Answers.{closes, is_too_long};
ghost use Rattle.tow_semantics.specs.Runs.{Ending};
ghost use Rattle.tow_answer.specs.Uses.{IsUsed};

use crate::content_use::ContentUse;
use crate::fields::known_length;
use tow_model::limits::{MAX_CONTENT_LEN, MAX_REQUESTS};
use tow_model::{Choice, Framing, Request, Version};

/// Whether the answer to request `number` of its connection ends the connection.
pub(crate) fn closes(
    request: &Request,
    number: u32,
    content_use: ContentUse,
    choice: &Choice,
) -> bool
    ensures { (content : Option Content) (o : Ending) → o.state.choice ≡ choice.now
        → IsUsed content_use content o → result ≡ closes request.now number content o }
{
    // What the client asked for, the bounds of a connection and of a content, a content that the client holds back and will
    // not be asked for, what the head cannot tell an old client, and a content whose end is not known.
    !request.keep
        || number == MAX_REQUESTS
        || is_too_long(request.framing)
        || (request.expects && !content_use.is_asked())
        || (is_old(request.version) && known_length(choice).is_none())
        || content_use.is_refused()
}

fn is_too_long(framing: Framing) -> bool
    ensures { result ≡ is_too_long framing }
{
    match framing {
        Framing::Empty | Framing::Chunked => false,
        Framing::Fixed(len) => len > MAX_CONTENT_LEN,
    }
}

fn is_old(version: Version) -> bool
    ensures { result ≡ is_old version }
{
    version == Version::V10
}
