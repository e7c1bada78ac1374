//! What a walk halts with.

/// Why an exchange is not played on here and now.
#[derive(Clone, Copy, Debug, PartialEq, Eq)]
pub enum Halt {
    /// Its answer is decided.
    Stopped,
    /// It waits for the verdict of the limit of this number, from 0.
    Limit(u32),
    /// It waits for the content of its request.
    Content,
    /// Only a worker goes on with it: under a loop's role after a `blocking`, and else for a page.
    Worker,
    /// The folder failed at the page that it waits for.
    FolderFault,
    /// The memory is short: it is to be completed.
    NoMemory,
}
