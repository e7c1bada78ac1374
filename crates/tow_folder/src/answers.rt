//! What the calls of a folder answer.

use tow_model::{Bytes, List};

/// What stands at a path. A length is in bytes, a second counts from 1970.
#[derive(Clone, Copy, Debug, PartialEq, Eq)]
pub enum Look {
    /// A file, with its length and the second of its last change.
    File { len: u64, second: u64 },
    Directory,
    /// Neither.
    Absent,
    /// The folder failed, and counted it.
    Failed,
}

/// What a read of a file gave.
#[derive(Clone, Copy, Debug, PartialEq, Eq)]
pub enum Part {
    /// So many bytes, at least 1, at the front of the buffer.
    Got(usize),
    /// The folder failed, and counted it.
    Failed,
}

/// The names in a directory.
#[derive(Debug, Drop)]
pub enum Listed {
    /// Each once, in any order.
    Names(List<Name>),
    /// The folder failed, and counted it.
    Failed,
    NoMemory,
}

/// A direct child of a directory.
#[derive(Debug, Drop)]
pub struct Name {
    /// Its name, without a `/`.
    pub text: Bytes,
    /// Whether it is a directory itself.
    pub directory: bool,
}
