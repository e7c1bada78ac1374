//! Lines of access logs. `line` answers what a format stands for as an exchange completes. That is
//! the value of a template, but that an empty attribute is `-`, that control bytes of an attribute
//! are shown as `\x1f`, so that no request can break a line, and that what only an answer has is
//! `-` if there was none.
//!
//! - `lines`: the line of a format, its pieces and its cut
//! - `answers`: which attributes are of an answer, and whether there is one
//! - `shown`: an attribute's bytes as a line shows them
#![tactic(auto)]

mod answers;
mod lines;
mod shown;
#[cfg(test)]
mod tests;

pub use lines::line;
