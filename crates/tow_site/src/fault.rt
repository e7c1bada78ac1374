//! Why a text gives no site.

use tow_language::Kind;

/// Why a text gave no site.
#[derive(Clone, Copy, Debug, PartialEq, Eq)]
pub enum Fault {
    /// The first fault of the text. Lines and columns count from 1, columns in bytes.
    Text { kind: Kind, line: u32, column: u32 },
    NoMemory,
}
