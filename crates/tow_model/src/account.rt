//! What a connection tells of itself: how it ended, what it asked of limits, who held it, and its log lines.

use crate::bytes::Bytes;
use crate::list::List;

/// What a limit decides.
#[derive(Clone, Copy, Debug, PartialEq, Eq)]
pub enum Verdict {
    Admitted,
    Refused,
}

/// A limit as the text has it.
#[derive(Clone, Copy, Debug, PartialEq, Eq)]
pub struct Bound {
    /// How many exchanges it admits at a time, from 1 to 65,535.
    pub most: u32,
}

/// What was asked of a limit.
#[derive(Clone, Copy, Debug, PartialEq, Eq)]
pub enum What {
    /// A place, with the answer.
    Enter(Verdict),
    /// To take a place back.
    Leave,
}

/// A call of a limit.
#[derive(Clone, Copy, Debug, PartialEq, Eq)]
pub struct Call {
    /// The limit's number in the order of the text, from 0.
    pub limit: u32,
    /// The request's number in its connection, from 1.
    pub request: u32,
    pub what: What,
}

/// A line of an access log.
#[derive(Debug, Drop)]
pub struct Line {
    /// The connection's number, from 0.
    pub connection: u32,
    /// The request's number in its connection, from 1.
    pub request: u32,
    /// The number of the `access-log` in the order of the text, from 0.
    pub number: u32,
    /// The line without its line end.
    pub text: Bytes,
}

/// The thread that holds a connection.
#[derive(Clone, Copy, Debug, PartialEq, Eq)]
pub enum Role {
    Main,
    /// An I/O loop, by its number from 0.
    Loop(u32),
    /// A worker, by its number from 0.
    Worker(u32),
}

/// How a connection ended.
#[derive(Clone, Copy, Debug, PartialEq, Eq)]
pub enum End {
    /// All was answered, or an answer closed it.
    Done,
    /// A read or a write of its link failed.
    LinkFault,
    /// A call of the folder failed.
    FolderFault,
    NoMemory,
}

/// What a connection tells at its end.
#[derive(Debug, Drop)]
pub struct Account {
    pub end: End,
    /// How many requests became exchanges.
    pub exchanges: u32,
    /// Its calls of limits, in their order.
    pub calls: List<Call>,
    /// Who held it, one after the other.
    pub hops: List<Role>,
}
