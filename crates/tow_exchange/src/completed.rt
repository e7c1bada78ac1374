//! An exchange that completed.

ghost use Rattle.std.specs.Prelude.{◌≡◌, [], ◌∷◌, IfSome, IfNone, length, reverse};
ghost use Rattle.tow_exchange.specs.Completions.{CompletedData, bare, without_listeners, without_record};

use std::alloc::Global;
use std::marker::Model;
use std::mem;
use tow_model::{Bytes, Choice, List, Listener, Record, Request};

/// An exchange that completed. Its listeners are taken out one by one, the last added first.
#[derive(Drop)]
pub struct Completed {
    connection: u32,
    number: u32,
    request: Request,
    moment: u64,
    state: Record,
    left: usize,
}

impl Model for Completed {
    ghost use Rattle.std.specs.Prelude.{◌≤◌, length, reverse, take};
    ghost use Rattle.tow_exchange.specs.Completions.{CompletedData};

    ghost Value = { CompletedData };

    ghost view = { λ c. record {
      connection = c.connection;
      number = c.number;
      request = c.request;
      moment = c.moment;
      state = c.state;
      left = reverse (take c.left c.state.listeners);
    } };

    ghost invariant = { λ c. c.left ≤ length c.state.listeners };
}

impl Completed {
    /// All listeners of the record are to run. Takes no memory.
    pub(crate) fn new(
        connection: u32,
        number: u32,
        request: Request,
        moment: u64,
        state: Record,
    ) -> Completed
        ensures { result ≡ (record {
          connection = connection;
          number = number;
          request = request;
          moment = moment;
          state = state;
          left = reverse state.listeners;
        }) }
    {
        let left = state.listeners.len();
        Completed {
            connection,
            number,
            request,
            moment,
            state,
            left,
        }
    }

    /// The next listener to run: each one once, the last added first, and then none. Takes no memory.
    pub fn next(&mut self) -> Option<Listener>
        ensures some { IfSome result (λ l. self.old
            ≡ record self.new { left = l ∷ self.new.left }) }
        ensures none { IfNone result (self.old.left ≡ []) }
        ensures unchanged { IfNone result (self.new ≡ self.old) }
    {
        if self.left == 0 {
            return None;
        }
        self.left -= 1;
        Some(self.state.listeners.as_slice()[self.left])
    }

    /// Takes the record out, so that it goes on into the answer without a copy. Its listeners stay here, and those that are
    /// left still run. Takes no memory.
    pub fn take_record(&mut self, alloc: Global) -> Record
        ensures taken { result ≡ without_listeners self.old.state }
        ensures rest { self.new ≡ without_record self.old }
    {
        let mut taken = no_record(alloc);
        mem::swap(&mut self.state, &mut taken);
        mem::swap(&mut self.state.listeners, &mut taken.listeners);
        taken
    }

    /// The number of its connection, from 0.
    pub fn connection(&self) -> u32
        ensures { result ≡ self.now.connection }
    {
        self.connection
    }

    /// The number of its request in the connection, from 1.
    pub fn number(&self) -> u32
        ensures { result ≡ self.now.number }
    {
        self.number
    }

    /// Its request.
    pub fn request(&self) -> &Request
        ensures { result.now ≡ self.now.request }
    {
        &self.request
    }

    /// Its moment, in seconds since 1970.
    pub fn moment(&self) -> u64
        ensures { result ≡ self.now.moment }
    {
        self.moment
    }

    /// The record that it completed with, until it is taken. It keeps all listeners, also those that have run.
    pub fn state(&self) -> &Record
        ensures { result.now ≡ self.now.state }
    {
        &self.state
    }
}

/// The record that stands where one was taken. Takes no memory.
fn no_record(alloc: Global) -> Record
    ensures { result ≡ bare [] }
{
    Record {
        path: Bytes::from_vec(Vec::new(alloc)),
        query: None,
        status: 200,
        fields: List::new(alloc),
        context: List::new(alloc),
        listeners: List::new(alloc),
        choice: Choice::Undecided,
    }
}
