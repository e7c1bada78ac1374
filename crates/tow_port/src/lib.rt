//! A link with a pipe for what came over it and a pipe for what is to be written: the two ends of a connection.
#![tactic(auto)]

mod port;
#[cfg(test)]
mod tests;

pub use port::Port;
