//! `echo`: answers with the request's content.

ghost use Rattle.std.specs.Prelude.{◌≡◌};

use crate::outcome::Effect;

/// Waits for the content of the request.
pub(crate) fn echo() -> Effect
    ensures { result ≡ Effect.Content }
{
    Effect::Content
}
