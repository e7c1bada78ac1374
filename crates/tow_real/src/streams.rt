//! The machine's byte streams.

ghost use Rattle.std.specs.Prelude.{◌≡◌, None};

use std::io::{Error, Read as ReadBytes, Write as WriteBytes};
use tow_link::{Read, Sink, Source, Write};

/// Reads from a stream of the machine.
#[derive(Drop)]
pub struct Reading<R: ReadBytes + Drop> {
    inner: R,
    faults: u64,
    // what the system said at the first fault
    reason: Option<Error>,
}

impl<R: ReadBytes + Drop> Reading<R> {
    /// From this stream, which has not failed. Takes no memory.
    pub fn new(inner: R) -> Self
        ensures { ⟦<Reading<R> as Source>⟧.shows result ≡ record { faults = 0; told = None } }
    {
        Reading {
            inner,
            faults: 0,
            reason: None,
        }
    }

    /// Why it failed first, if it has.
    pub fn reason(&self) -> Option<Error> {
        self.reason
    }
}

impl<R: ReadBytes + Drop> Source for Reading<R> {
    ghost shows = { λ s. record { faults = s.faults; told = None } };

    fn read(&mut self, to: &mut [u8]) -> Read {
        match self.inner.read(to) {
            Ok(0) => Read::End,
            Ok(count) => Read::Got(count),
            Err(error) => {
                self.faults = self.faults.saturating_add(1);
                self.reason = self.reason.or(Some(error));
                Read::Failed
            }
        }
    }
}

/// Writes to a stream of the machine.
#[derive(Drop)]
pub struct Writing<W: WriteBytes + Drop> {
    inner: W,
    faults: u64,
    // what the system said at the first fault
    reason: Option<Error>,
}

impl<W: WriteBytes + Drop> Writing<W> {
    /// To this stream, which has not failed. Takes no memory.
    pub fn new(inner: W) -> Self
        ensures { ⟦<Writing<W> as Sink>⟧.shows result ≡ record { faults = 0; written = None } }
    {
        Writing {
            inner,
            faults: 0,
            reason: None,
        }
    }

    /// Why it failed first, if it has and the system said so.
    pub fn reason(&self) -> Option<Error> {
        self.reason
    }

    /// The stream itself.
    pub fn inner(&self) -> &W {
        &self.inner
    }
}

impl<W: WriteBytes + Drop> Sink for Writing<W> {
    ghost shows = { λ s. record { faults = s.faults; written = None } };

    fn write(&mut self, from: &[u8]) -> Write {
        let reason = match self.inner.write(from) {
            Ok(count) if count > 0 => return Write::Took(count),
            Ok(_nothing) => None,
            Err(error) => Some(error),
        };
        self.faults = self.faults.saturating_add(1);
        self.reason = self.reason.or(reason);
        Write::Failed
    }
}
