//! How an exchange goes on through its text. A step that is waited for is not taken yet: `giving` has what follows.

ghost use Rattle.std.specs.Prelude.{◌≡◌, OnErr, OnOk};
ghost use Rattle.std.specs.Borrow.{sem};
ghost use Rattle.tow_exchange.specs.Exchanges.{after, after_test, begun_again, moved_to, stopped, stopped_with, waiting};

use crate::dispatch::Dispatch;
use crate::exchange::Exchange;
use crate::listeners::with_listener;
use crate::phase::Phase;
use crate::place::Place;
use std::alloc::Global;
use tow_model::{Action, Bytes, Choice, List, Listener, NoMemory, Record, Request};

impl Exchange {
    ghost use Rattle.tow_exchange.specs.Lending.{LendsState};

    /// The request, and the record to be written by a step of the text. The exchange waits for nothing meanwhile. Takes no
    /// memory.
    pub fn under_way(&mut self) -> (&Request, &mut Record)
        requires running { self.old.phase ≡ Phase.Running }
        ensures request { result.0.now ≡ self.old.request }
        ensures state { result.1.now ≡ self.old.stand.state }
        ensures* after_borrow { sem 𝓛 (LendsState self.entry result.1) }
    {
        (&self.request, &mut self.state)
    }

    /// Goes on at the place. Takes no memory.
    pub fn go_to(&mut self, place: Place)
        ensures { self.new ≡ moved_to place self.old }
    {
        self.place = place;
    }

    /// Notes that the action was taken: after a `blocking` the exchange is dispatched to a worker. Takes no memory.
    pub fn note_action(&mut self, action: &Action)
        ensures { self.new ≡ after action.now self.old }
    {
        self.dispatch = match action {
            Action::Blocking => self.dispatch.after_blocking(),
            _ => self.dispatch.after_step(),
        };
    }

    /// Notes that a predicate was asked. Takes no memory.
    pub fn note_test(&mut self)
        ensures { self.new ≡ after_test self.old }
    {
        self.dispatch = self.dispatch.after_step();
    }

    /// Waits for the verdict of the limit of this number, and goes on at the place once it is admitted. Takes memory for
    /// its listeners with the one that leaves the limit; if it is short, the exchange is as it was.
    pub fn await_verdict(&mut self, alloc: Global, limit: u32, place: Place) -> Result<(), NoMemory>
        ensures ok { OnOk result (self.new ≡ waiting (Phase.AwaitsVerdict limit) place self.old) }
        ensures err { OnErr result (self.new ≡ self.old) }
    {
        let listeners = self.state.listeners.as_slice();
        self.admitted = with_listener(alloc, listeners, Listener::Leave(limit))?;
        self.phase = Phase::AwaitsVerdict(limit);
        self.place = place;
        Ok(())
    }

    /// Waits for the content of its request. Takes no memory.
    pub fn await_content(&mut self, place: Place)
        ensures { self.new ≡ waiting Phase.AwaitsContent place self.old }
    {
        self.phase = Phase::AwaitsContent;
        self.place = place;
    }

    /// Waits for a page after the location, and goes on at the place if none is found. Takes no memory.
    pub fn await_page(&mut self, location: Bytes, listing: bool, place: Place)
        ensures { self.new ≡ waiting (Phase.AwaitsPage location listing) place self.old }
    {
        self.phase = Phase::AwaitsPage { location, listing };
        self.place = place;
    }

    /// Its record has its answer. Takes no memory.
    pub fn stop(&mut self)
        ensures { self.new ≡ stopped self.old }
    {
        self.phase = Phase::Stopped;
    }

    /// Is answered with this status and no content. Takes no memory.
    pub fn stop_with(&mut self, status: u16)
        ensures { self.new ≡ stopped_with status self.old }
    {
        self.state.status = status;
        self.state.choice = Choice::Empty;
        self.phase = Phase::Stopped;
    }

    /// Begins its text again without its bindings, or is answered 500 if no restart is left. Takes no memory.
    pub fn begin_again(&mut self, alloc: Global)
        ensures { self.new ≡ begun_again self.old.restarts_left self.old }
    {
        if self.restarts_left == 0 {
            self.stop_with(500);
        } else {
            self.restarts_left -= 1;
            self.state.context = List::new(alloc);
            self.place = Place::InText(0);
        }
    }
}
