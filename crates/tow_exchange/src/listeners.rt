//! The listeners of an exchange.

ghost use Rattle.std.specs.Prelude.{◌≡◌, ◌∷◌, ◌++◌, [], IfOk, OnErr, OnOk};
ghost use Rattle.tow_semantics.specs.Steps.{listening};
ghost use Rattle.tow_exchange.specs.Exchanges.{with_state};

use crate::exchange::Exchange;
use crate::phase::Phase;
use std::alloc::{AllocError, Global};
use tow_model::{List, Listener, NoMemory};

impl Exchange {
    /// Adds a listener that is to run when the exchange completes, before those that were added earlier. Takes memory for
    /// its place; if it is short, the exchange is as it was.
    pub fn add_listener(&mut self, alloc: Global, listener: Listener) -> Result<(), NoMemory>
        ensures ok { OnOk result (self.new
            ≡ with_state (listening listener self.old.stand.state) self.old) }
        ensures err { OnErr result (self.new ≡ self.old) }
    {
        if let Phase::AwaitsVerdict(limit) = self.phase {
            let mut admitted = with_listener(alloc, self.state.listeners.as_slice(), listener)?;
            admitted.push(Listener::Leave(limit))?;
            self.state.listeners.push(listener)?;
            self.admitted = admitted;
        } else {
            self.state.listeners.push(listener)?;
        }
        Ok(())
    }
}

/// A copy of the listeners with one more after them. Takes memory for all of them.
pub(crate) fn with_listener(
    alloc: Global,
    listeners: &[Listener],
    listener: Listener,
) -> Result<List<Listener>, AllocError>
    ensures { IfOk result (λ ls. ls ≡ listeners.now ++ listener ∷ []) }
{
    let mut items = Vec::with_capacity(alloc, listeners.len() + 1)?;
    items.extend_from_slice(listeners)?;
    items.push(listener)?;
    Ok(List::from_vec(items))
}
