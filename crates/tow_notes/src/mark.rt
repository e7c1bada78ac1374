//! What the walk over the statements says of a token.

/// What is said of a token.
#[derive(Clone, Copy, Debug, PartialEq, Eq)]
pub enum Mark {
    /// Nothing.
    Plain,
    /// It begins a statement that is never reached.
    Unreached,
    /// It is the location of a `resource` after which the text can end.
    WholeFolder,
    /// It names a target that is under no test of plain paths.
    AnyPath,
}
