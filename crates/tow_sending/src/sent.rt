//! What the calls of an answer under way tell.

/// How a call of an answer under way ended.
#[derive(Clone, Copy, Debug, PartialEq, Eq)]
pub enum Sent {
    /// The next piece was put, and more are left.
    Piece,
    /// The next piece is a file's, which `put_file` puts. Nothing was put.
    NeedWorker,
    /// The pipe has less room than the next piece takes. Nothing was put.
    Full,
    /// All is put.
    Whole,
    /// The folder failed, and counted it. Nothing was put.
    FolderFault,
}

/// What is to be put next.
#[derive(Clone, Copy, Debug, PartialEq, Eq)]
pub(crate) enum Next {
    Nothing,
    /// Bytes that the answer has itself.
    Own,
    /// Bytes of a file.
    File,
}

/// How the put of a file's piece ended.
#[derive(Clone, Copy, Debug, PartialEq, Eq)]
pub(crate) enum PartPut {
    Put,
    /// The pipe has less room than the piece takes.
    NoRoom,
    /// The folder failed, and counted it.
    Fault,
}
