//! An exchange: one request with its record, its listeners, where it stands in its text and what it waits for. It is the
//! one place where all of these stand together, so that it can be handed from an I/O loop to a worker as one value.
//!
//! - `exchange`: the exchange, what it holds, and its completion.
//! - `listeners`: its listeners, which run when it completes.
//! - `moves`: how it goes on through its text, and what it comes to wait for.
//! - `giving`: how it goes on when what it waits for is given.
//! - `completed`: an exchange that completed, and its listeners, each once, last added first.
//! - `place`, `phase`, `dispatch`: where it stands, what it waits for, who may go on with it.
//! - `start`: the record of a request before its text begins.
#![tactic(auto)]

mod completed;
mod dispatch;
mod exchange;
mod giving;
mod listeners;
mod moves;
mod phase;
mod place;
mod start;
#[cfg(test)]
mod tests;

pub use completed::Completed;
pub use dispatch::Dispatch;
pub use exchange::Exchange;
pub use phase::Phase;
pub use place::Place;
