//! What a client sends: heads and which of them are refused, contents, and an input as a stream of requests.
//! The definitions stand in specs/, and their laws in `laws`.
#![tactic(auto)]

pub mod laws;
