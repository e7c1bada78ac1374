//! `blocking`: a worker takes the steps that follow.

ghost use Rattle.std.specs.Prelude.{◌≡◌};

use crate::outcome::Effect;

/// Goes on. That a worker does so is seen to by what walks over the text.
pub(crate) fn blocking() -> Effect
    ensures { result ≡ Effect.Go }
{
    Effect::Go
}
