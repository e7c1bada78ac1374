//! What an exchange waits for.

use tow_model::Bytes;

/// What an exchange waits for, if anything.
#[derive(Debug, Drop)]
pub enum Phase {
    /// For nothing: it goes on at its place.
    Running,
    /// For the verdict of the limit of this number, from 0.
    AwaitsVerdict(u32),
    /// For the content of its request.
    AwaitsContent,
    /// For a page after this location of the folder, with a listing or without.
    AwaitsPage { location: Bytes, listing: bool },
    /// For nothing any more: its answer is decided.
    Stopped,
}
