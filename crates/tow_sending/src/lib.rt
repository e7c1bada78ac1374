//! An answer under way: put into a pipe piece by piece, each piece whole or not at all. A piece has at most 16,384 bytes
//! of the head or of the content, and the framing of a chunk beside them. Contracts see the pieces that are still to be
//! put; together they are all that is left of the answer.
#![tactic(auto)]

mod body;
mod file_rest;
pub mod laws;
mod putting;
mod reading;
mod rest;
mod sending;
mod sent;
mod size_line;
#[cfg(test)]
mod tests;

pub use sending::Sending;
pub use sent::Sent;
