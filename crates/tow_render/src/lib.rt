//! The bytes of an answer's head (RFC 9112, section 2.1): the status line with its reason, the field lines and the empty
//! line, and the value of its date field.
#![tactic(auto)]

mod dates;
mod heads;
mod reasons;
#[cfg(test)]
mod tests;

pub use dates::date;
pub use heads::head;
pub use reasons::reason;
