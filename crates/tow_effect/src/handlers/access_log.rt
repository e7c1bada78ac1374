//! `access-log`: adds a listener that writes a line when the exchange completes.

ghost use Rattle.std.specs.Prelude.{◌≡◌, OnOk, OnErr};
ghost use Rattle.tow_model.specs.declared.record.Listener.TheVariants.{Log};
ghost use Rattle.tow_semantics.specs.Steps.{listening};

use tow_model::{Listener, NoMemory, Record};

/// Adds the listener for the log of this number. Takes memory for its place.
pub(crate) fn access_log(number: u32, exchange: &mut Record) -> Result<(), NoMemory>
    ensures ok { OnOk result (exchange.new ≡ listening (Log number) exchange.old) }
    ensures err { OnErr result (exchange.new ≡ exchange.old) }
{
    exchange.listeners.push(Listener::Log(number))?;
    Ok(())
}
