//! A file of a folder in memory.

use tow_model::Bytes;

/// A file with the path under which it stands, which begins with `/`.
#[derive(Debug, Drop)]
pub struct MemoryFile {
    pub path: Bytes,
    /// When it was last changed, in seconds since 1970.
    pub second: u64,
    pub bytes: Bytes,
}
