//! What a listener does.

use tow_model::Bytes;

/// What a listener does when its exchange completes.
#[derive(Debug, Drop)]
pub enum Work {
    /// It leaves the limit of this number, from 0.
    Leave(u32),
    /// It tells its line to the access log of this number, from 0; none if there was no memory for the lines.
    Tell { number: u32, line: Option<Bytes> },
}
