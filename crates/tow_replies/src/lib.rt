//! From an exchange that completed to the answer that is sent: its record goes on into the answer, of which nothing is
//! copied.
//!
//! - `reply`: what is sent, and whether the connection ends after it.
#![tactic(auto)]

mod reply;

pub use reply::{Reply, reply_to};
