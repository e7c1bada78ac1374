//! How far a connection has come.

ghost use Rattle.std.specs.Prelude.{◌≤◌, length};

use crate::turn::Turn;
use tow_closing::Closing;
use tow_content::{ContentSource, Gathering};
use tow_exchange::Exchange;
use tow_model::{Bytes, End};
use tow_sending::Sending;
use tow_source::Drain;

/// What a connection does, with all that it keeps for it.
#[derive(Drop)]
pub enum Stage {
    /// It reads the next head.
    Reading,
    /// It puts the answer to a head that is refused.
    Refusing(Refusal),
    /// An exchange walks through its text, or waits for a verdict or a worker.
    Walking(Exchange),
    /// An exchange waits for its content, which is read.
    Gathering(Asking),
    /// The answer of an exchange is put, and then a content that nobody asked for is dropped.
    Answering(Answering),
    /// The listeners of an exchange run.
    Closing(Completing),
    /// It has ended so.
    Ended(End),
}

/// The answer to a head that is refused, of which so much is put.
#[derive(Debug, Drop)]
pub struct Refusal {
    pub text: Bytes,
    pub put: usize,
    pub ghost within: { put ≤ length text },
}

/// An exchange that waits for its content.
#[derive(Drop)]
pub struct Asking {
    pub exchange: Exchange,
    pub gathering: Gathering,
    /// The client is still to be told to send it.
    pub to_invite: bool,
}

/// An exchange whose answer is decided.
#[derive(Drop)]
pub struct Answering {
    pub closing: Closing,
    pub sending: Sending,
    /// The connection ends after the answer.
    pub closes: bool,
    /// The content that was not asked for, if the connection may go on behind it.
    pub drain: Option<Drain<ContentSource>>,
}

/// An exchange whose listeners run.
#[derive(Drop)]
pub struct Completing {
    pub closing: Closing,
    /// The limit that was to be left last, and is not left yet.
    pub owed: Option<u32>,
    /// How the connection ends after it; it goes on to the next request if this is none.
    pub end: Option<End>,
}

/// What follows a step.
#[derive(Clone, Copy, Debug, PartialEq, Eq)]
pub enum Then {
    /// The next step.
    On,
    /// The turn ends with this answer.
    Stop(Turn),
    /// The link is to be read, which is an I/O loop's.
    Read,
    /// The link is to be written, which is an I/O loop's.
    Write,
}
