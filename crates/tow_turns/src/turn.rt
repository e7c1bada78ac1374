//! What a turn ends with.

use tow_model::End;

/// Why a turn stops, and what is to be done before the next one.
#[derive(Clone, Copy, Debug, PartialEq, Eq)]
pub enum Turn {
    /// The link takes or gives nothing yet.
    Idle,
    /// The limit of this number, from 0, is to be entered, and its verdict given.
    AskLimit(u32),
    /// The limit of this number, from 0, is to be left.
    Release(u32),
    /// A worker is to go on.
    ToPool,
    /// The connection's I/O loop is to go on.
    ToLoop,
    /// The turn has moved enough over the link: others are to have a turn.
    Spent,
    /// The connection has ended so.
    Ended(End),
}
