//! What the input of a connection goes on with: the next request, a refusal, nothing more, or more to read. `next_request`
//! takes what `next_head` of tow_request finds, and refuses a request that is not served yet (`unserved`).
#![tactic(auto)]

mod requests;
#[cfg(test)]
mod tests;
mod unserved;

pub use requests::{NextRequest, next_request};
