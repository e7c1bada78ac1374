//! Bytes between a link and a connection: a pipe holds them in their order, up to a capacity that is fixed when it is
//! made. Bytes are put at its end and taken from its front, and all of them are seen in one slice. No byte is copied
//! but into the pipe, and no call but `new` takes memory.
#![tactic(auto)]

mod pipe;
#[cfg(test)]
mod tests;

pub use pipe::Pipe;
