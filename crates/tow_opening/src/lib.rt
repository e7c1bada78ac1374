//! The step of a connection that is served by turns, between two requests: the next head is read, and the exchange of its request
//! opens, or the head is refused.
//!
//! - `reading`: what the input goes on with.
//! - `opening`: the exchange of a request opens.
//! - `refusing`: a head is refused.
#![tactic(auto)]

mod opening;
mod reading;
mod refusing;

pub use reading::read_on;
