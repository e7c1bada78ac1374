//! An entry of a limit's history.

use tow_model::Call;

/// A call in a history, and whose it was.
#[derive(Clone, Copy, Debug, PartialEq, Eq)]
pub struct Entry {
    /// The number of the connection, from 0.
    pub connection: u32,
    pub call: Call,
}
