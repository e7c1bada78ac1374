//! How the text goes on after a page.

/// What follows for an exchange whose page was found or not.
#[derive(Clone, Copy, Debug, PartialEq, Eq)]
pub enum End {
    /// It stops with the record as it is now.
    Stops,
    /// It stops with this status and without content.
    Answers(u16),
    /// Its text goes on.
    GoesOn,
}
