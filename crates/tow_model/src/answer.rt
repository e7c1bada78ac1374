//! What is written for a request.

use crate::list::List;
use crate::record::Choice;
use crate::request::Field;

/// An answer with all its fields.
#[derive(Debug, Drop)]
pub struct Answer {
    pub status: u16,
    /// In the order of their names, which are in lower case.
    pub fields: List<Field>,
    pub choice: Choice,
    /// Whether the connection ends after it.
    pub close: bool,
}
