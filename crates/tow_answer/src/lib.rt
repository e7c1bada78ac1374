//! Answers: the fields of an answer, whether it closes its connection, and its bytes (RFC 9110, section 6; RFC 9112, sections 6
//! and 9).
#![tactic(auto)]

mod answers;
mod closes;
mod content_use;
mod fields;
mod refusals;
mod sorting;
#[cfg(test)]
mod tests;

pub use answers::{answer_to, text_of};
pub use content_use::ContentUse;
pub use refusals::refusal;
