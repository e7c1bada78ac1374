//! What becomes of an exchange's record by what was found for its path: a file, the listing of a directory, an address, or
//! nothing. The folder itself is asked elsewhere.
//!
//! - `applying`: what each page makes of the record
//! - `types`: content types by the suffix of a path
#![tactic(auto)]

mod applying;
mod end;
#[cfg(test)]
mod tests;
mod types;

pub use applying::apply;
pub use end::End;
pub use types::content_type;
