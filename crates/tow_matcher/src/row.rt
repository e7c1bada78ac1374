//! One literal test of a path.

use tow_model::Bytes;

/// A literal test: whether a path is this one, or, of a prefix, lies under it.
#[derive(Debug, Drop)]
pub struct Row {
    /// The path or prefix, decoded, of at most `usize::MAX` bytes.
    pub path: Bytes,
    /// Whether the row also holds for what begins with its path and a `/`.
    pub prefix: bool,
}
