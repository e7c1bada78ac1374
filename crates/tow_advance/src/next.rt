//! What an exchange needs next.

use tow_model::Bytes;

/// What an exchange needs before it goes on.
#[derive(Debug, Drop)]
pub enum Next {
    /// Nothing: its answer is decided.
    Stop,
    /// The verdict of the limit of this number, from 0.
    AskLimit(u32),
    /// The content of its request.
    NeedContent,
    /// A page after this location of the folder, with a listing or without.
    NeedFolder { location: Bytes, listing: bool },
    /// A worker, which alone may go on with it.
    NeedWorker,
    /// The memory is short: it is to be completed.
    NoMemory,
}
