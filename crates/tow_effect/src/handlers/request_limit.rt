//! `request-limit`: enters a limit.

ghost use Rattle.std.specs.Prelude.{◌≡◌};

use crate::outcome::Effect;

/// Waits for the verdict of the limit of this number. Takes no memory.
pub(crate) fn request_limit(number: u32) -> Effect
    ensures { result ≡ Effect.Ask number }
{
    Effect::Ask(number)
}
