//! Which row of a table of literal paths and prefixes is the first that holds for a path: `Matcher` is made once of the
//! rows, and a request asks it by the path. It finds the row by a search in a sorted table for each `/` of the path, and
//! not by one test after the other.
#![tactic(auto)]

mod matcher;
mod row;
mod table;
#[cfg(test)]
mod tests;

pub use matcher::Matcher;
pub use row::Row;
pub use tow_model::{Bytes, List, NoMemory};
