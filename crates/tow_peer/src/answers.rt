//! What the calls of a link answer.

/// What a read gave.
#[derive(Clone, Copy, Debug, PartialEq, Eq)]
pub enum LinkRead {
    /// So many bytes, at least 1, at the front of the buffer.
    Got(usize),
    /// Nothing yet: the link counted a stall of reads.
    NotYet,
    /// The peer sends nothing more.
    End,
    /// The link failed, and counted it.
    Failed,
}

/// What became of a write.
#[derive(Clone, Copy, Debug, PartialEq, Eq)]
pub enum LinkWrite {
    /// So many of the first bytes, at least 1, were written.
    Took(usize),
    /// Nothing yet: the link counted a stall of writes.
    NotYet,
    /// The link failed, and counted it.
    Failed,
}
