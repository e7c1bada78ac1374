//! What handlers read and write while a request is answered.

use crate::bytes::Bytes;
use crate::list::List;
use crate::request::Field;

/// What runs when an exchange completes.
#[derive(Clone, Copy, Debug, PartialEq, Eq)]
pub enum Listener {
    /// A place in the limit of this number is given back.
    Leave(u32),
    /// A line is written to the log of this number.
    Log(u32),
}

/// The content of an answer.
#[derive(Debug, Drop)]
pub enum Choice {
    /// Nothing was decided yet.
    Undecided,
    Empty,
    Whole(Bytes),
    /// A file of the folder, with its length in bytes.
    File { path: Bytes, len: u64 },
    /// The page of a directory, whose length is not told in its head.
    Listing(Bytes),
}

/// The state of an exchange, beside the request itself.
#[derive(Debug, Drop)]
pub struct Record {
    /// The path as handlers see it: decoded and resolved, until one writes it.
    pub path: Bytes,
    /// The query string without its `?`, if there is one.
    pub query: Option<Bytes>,
    /// The status of the answer, 200 until a handler sets it.
    pub status: u16,
    /// The response fields that the text has made.
    pub fields: List<Field>,
    /// What predicates have bound, and handlers written as `${NAME}`.
    pub context: List<Field>,
    /// What runs at completion, first added first.
    pub listeners: List<Listener>,
    /// The answer's content.
    pub choice: Choice,
}
