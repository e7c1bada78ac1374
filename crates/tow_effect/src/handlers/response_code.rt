//! `response-code`: answers with a status.

ghost use Rattle.std.specs.Prelude.{◌≡◌};
ghost use Rattle.tow_semantics.specs.Steps.{answered};

use crate::answers::answer;
use crate::outcome::Effect;
use tow_model::Record;

/// Answers with this status and no content. Takes no memory.
pub(crate) fn response_code(status: u16, exchange: &mut Record) -> Effect
    ensures stops { result ≡ Effect.Stop }
    ensures answered { exchange.new ≡ answered status exchange.old }
{
    answer(status, exchange);
    Effect::Stop
}
