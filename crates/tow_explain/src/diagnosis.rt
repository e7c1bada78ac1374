//! What was found at a place of a text.

use crate::cause::Cause;
use tow_language::Signature;
use tow_model::Bytes;

/// What is wrong at a place, the text that it is about, which may be empty, and the call that it
/// stands in, if it is known.
#[derive(Drop)]
pub struct Diagnosis {
    pub cause: Cause,
    pub subject: Bytes,
    pub call: Option<Signature>,
}
