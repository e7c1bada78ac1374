//! Answers without content.

ghost use Rattle.std.specs.Prelude.{◌≡◌};
ghost use Rattle.tow_semantics.specs.Steps.{answered};

use tow_model::{Choice, Record};

/// Decides the answer: this status, and no content. Takes no memory.
pub fn answer(status: u16, exchange: &mut Record)
    ensures { exchange.new ≡ answered status exchange.old }
{
    exchange.status = status;
    exchange.choice = Choice::Empty;
}
