//! The content of an answer, framed into a pipe as its bytes come (RFC 9112, sections 6 and 7): as it
//! is, up to a known length, in chunks, not at all, or in blocks. However the bytes are cut into
//! calls, a sink puts what its form in `specs/` makes of all of them, and each but `Plain` is around
//! another one.
#![tactic(auto)]

mod buffered;
mod chunked;
mod finish;
mod fixed;
mod head_only;
pub mod laws;
mod listing;
mod plain;
mod sink;
#[cfg(test)]
mod tests;
mod text;

pub use buffered::Buffered;
pub use chunked::Chunked;
pub use finish::Finish;
pub use fixed::Fixed;
pub use head_only::HeadOnly;
pub use listing::listing_sink;
pub use plain::Plain;
pub use sink::StreamSink;
