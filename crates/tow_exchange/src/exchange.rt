//! An exchange under way.

ghost use Rattle.std.specs.Prelude.{◌≡◌, IfOk};
ghost use Rattle.tow_exchange.specs.Exchanges.{mark_of, opened};
ghost use Rattle.tow_exchange.specs.Completions.{completion};

use crate::completed::Completed;
use crate::dispatch::Dispatch;
use crate::phase::Phase;
use crate::place::Place;
use crate::start::start;
use std::alloc::Global;
use std::marker::Model;
use tow_model::limits::MAX_RESTARTS;
use tow_model::{List, Listener, NoMemory, Record, Request};

/// A request under way, with all that is kept of it between two steps.
#[derive(Drop)]
pub struct Exchange {
    pub(crate) connection: u32,
    pub(crate) number: u32,
    pub(crate) request: Request,
    pub(crate) moment: u64,
    pub(crate) state: Record,
    pub(crate) dispatch: Dispatch,
    pub(crate) phase: Phase,
    pub(crate) place: Place,
    pub(crate) restarts_left: usize,
    /// While it waits for a verdict: its listeners as they are once it is admitted. So an admission takes no memory.
    pub(crate) admitted: List<Listener>,
}

impl Model for Exchange {
    ghost use Rattle.tow_exchange.specs.Exchanges.{ExchangeData, mark_of};
    ghost use Rattle.tow_exchange.specs.Listening.{IsReady};

    ghost Value = { ExchangeData };

    ghost view = { λ e. record {
      connection = e.connection;
      number = e.number;
      request = e.request;
      moment = e.moment;
      stand = record { state = e.state; mark = mark_of e.dispatch };
      phase = e.phase;
      place = e.place;
      restarts_left = e.restarts_left;
    } };

    ghost invariant = { λ e. IsReady e.phase e.state.listeners e.admitted };
}

impl Exchange {
    /// The exchange of request `number` of a connection, before the first instruction of its text. The moment is in
    /// seconds since 1970. Takes memory for the path and the query of its record.
    pub fn new(
        alloc: Global,
        connection: u32,
        number: u32,
        request: Request,
        moment: u64,
    ) -> Result<Exchange, NoMemory>
        ensures { IfOk result (λ e. e ≡ opened connection number request moment) }
    {
        let state = start(alloc, &request)?;
        Ok(Exchange {
            connection,
            number,
            request,
            moment,
            state,
            dispatch: Dispatch::Anyone,
            phase: Phase::Running,
            place: Place::InText(0),
            restarts_left: MAX_RESTARTS,
            admitted: List::new(alloc),
        })
    }

    /// Its record.
    pub fn state(&self) -> &Record
        ensures { result.now ≡ self.now.stand.state }
    {
        &self.state
    }

    /// Its request.
    pub fn request(&self) -> &Request
        ensures { result.now ≡ self.now.request }
    {
        &self.request
    }

    /// The number of its connection, from 0.
    pub fn connection(&self) -> u32
        ensures { result ≡ self.now.connection }
    {
        self.connection
    }

    /// The number of its request in the connection, from 1.
    pub fn number(&self) -> u32
        ensures { result ≡ self.now.number }
    {
        self.number
    }

    /// Its moment, in seconds since 1970.
    pub fn moment(&self) -> u64
        ensures { result ≡ self.now.moment }
    {
        self.moment
    }

    /// What it waits for.
    pub fn phase(&self) -> &Phase
        ensures { result.now ≡ self.now.phase }
    {
        &self.phase
    }

    /// Where it goes on.
    pub fn place(&self) -> Place
        ensures { result ≡ self.now.place }
    {
        self.place
    }

    /// How many restarts it may still make.
    pub fn restarts_left(&self) -> usize
        ensures { result ≡ self.now.restarts_left }
    {
        self.restarts_left
    }

    /// Who may go on with it.
    pub fn dispatch(&self) -> Dispatch
        ensures { mark_of result ≡ self.now.stand.mark }
    {
        self.dispatch
    }

    /// The exchange is complete: its listeners are to run. Takes no memory.
    pub fn complete(self) -> Completed
        ensures { result ≡ completion self }
    {
        let Exchange {
            connection,
            number,
            request,
            moment,
            state,
            ..
        } = self;
        Completed::new(connection, number, request, moment, state)
    }
}
