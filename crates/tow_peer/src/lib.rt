//! A link to a peer: the bytes that it sends, and those that are written to it, as an I/O loop sees both. A link says in each
//! call what it could not do yet. `MemoryLink` tells all of it; a source and a sink side by side are a link, too.
#![tactic(auto)]

mod answers;
mod joined;
mod link;
mod memory_link;
#[cfg(test)]
mod tests;

pub use answers::{LinkRead, LinkWrite};
pub use link::Link;
pub use memory_link::{Calls, MemoryLink};
