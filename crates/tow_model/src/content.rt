//! The content of a request.

use crate::bytes::Bytes;

/// What the content of a request came to.
#[derive(Debug, Drop)]
pub enum Content {
    Whole(Bytes),
    /// No bytes that follow could make it content.
    Bad,
    /// It has more than 1,048,576 bytes.
    TooLong,
}
