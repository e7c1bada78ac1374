//! What a connection writes: answers with their fields and their bytes, and the wire of a stream of requests.
//! The definitions stand in specs/, and their laws in `laws`.
#![tactic(auto)]

pub mod laws;
