//! How far a connection has come, and what a turn comes to.

use crate::inbox::Inbox;
use tow_model::End;

/// How far a connection has come.
#[derive(Debug, Drop)]
pub struct Progress {
    /// What was read and is not answered yet.
    pub inbox: Inbox,
    /// The number of the next request, from 1.
    pub number: u32,
    /// The input has ended.
    pub ended: bool,
}

/// What a turn of a connection comes to.
#[derive(Clone, Copy, Debug, PartialEq, Eq)]
pub enum Turn {
    /// The connection goes on.
    Goes,
    /// It has ended.
    Ended(End),
}
