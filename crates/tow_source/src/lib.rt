//! The content of a request, read from a pipe as its bytes come (RFC 9112, sections 6 and 7): of a
//! known length, in chunks, or dropped unread. However the bytes are cut into calls, a source gives
//! the content that `IsContent` of tow_message says.
#![tactic(auto)]

mod body;
mod chunked;
mod drain;
mod fixed;
mod moving;
mod place;
mod source;
mod step;
#[cfg(test)]
mod tests;

pub use body::{Body, Drained};
pub use chunked::ChunkedSource;
pub use drain::Drain;
pub use fixed::FixedSource;
pub use source::BodySource;
