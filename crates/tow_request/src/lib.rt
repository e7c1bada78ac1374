//! Reads the head of a request at the front of an input (RFC 9112, sections 2, 3 and 6), by the grammar of `httparse`: which
//! bytes are a head, which heads are refused with which status, and which request a served head is. `look` finds the head,
//! `refusals` tests it where it stands, and `requests` makes its request; `fields`, `elements`, `codings` and `framing` read
//! its field lines.
#![tactic(auto)]

mod codings;
mod elements;
mod fields;
mod framing;
#[cfg(test)]
mod head_tests;
mod look;
mod refusals;
mod requests;
#[cfg(test)]
mod tests;

pub use look::next_head;
use tow_model::Request;

/// What a look at the front of an input finds.
#[derive(Debug, Drop)]
pub enum NextHead {
    /// A head that is served: its request, and how many bytes it takes.
    Head(Request, usize),
    /// No head yet; more bytes may make one.
    Partial,
    /// The input ended on nothing but line ends.
    Nothing,
    /// A head that is refused with this status, or bytes that will be no head.
    Refuse(u16),
    NoMemory,
}
