//! The content of a request by its framing: a source gives its bytes as they come, and a gathering collects them whole.
//! A content that nobody wants is dropped by a `Drain` of tow_source over its source.
#![tactic(auto)]

mod gathering;
mod source;
#[cfg(test)]
mod tests;

pub use gathering::{Gathered, Gathering};
pub use source::ContentSource;
