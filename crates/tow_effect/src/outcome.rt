//! What actions and writes answer.

use tow_model::Bytes;

/// What an action does, or what it waits for.
#[derive(Debug, Drop)]
pub enum Effect {
    /// The text goes on.
    Go,
    /// The exchange has its answer.
    Stop,
    /// A limit is to be entered, by its number.
    Ask(u32),
    /// The content of the request is to be read.
    Content,
    /// A page is to be looked for after the location, with a listing or without.
    Page { location: Bytes, listing: bool },
    /// The text begins again.
    Restart,
    /// The text ends, and the default handler answers.
    ToDefault,
    NoMemory,
}

/// What became of a value that was to be written.
#[derive(Clone, Copy, Debug, PartialEq, Eq)]
pub enum Assign {
    Assigned,
    /// The value breaks a rule of its target.
    BadValue,
    NoMemory,
}
