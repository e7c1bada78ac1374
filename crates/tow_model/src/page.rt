//! What the folder has for a path.

use crate::Bytes;

/// What a look into the folder came to. A second counts from 1970.
#[derive(Debug, Drop)]
pub enum Page {
    /// A file, by its path in the folder and its length in bytes.
    Serve { path: Bytes, len: u64, second: u64 },
    /// The path of a directory without its `/`: the address with it.
    Redirect(Bytes),
    /// The page of a directory.
    Listing(Bytes),
    /// A directory that is not listed.
    Forbidden,
    /// The client has the file as it is.
    NotModified { second: u64 },
    NotFound,
    /// The method is neither GET nor HEAD.
    BadMethod,
    FolderFault,
    NoMemory,
}
