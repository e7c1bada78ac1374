//! One connection: requests are read from a source, answered in order, and the answers written to a sink.
#![tactic(auto)]

mod answering;
mod ask;
mod inbox;
mod progress;
mod reading;
mod reply;
#[cfg(test)]
mod tests;

pub use ask::ask_whole;
