//! What the actions of a site's text do to the record of an exchange, or what they wait for, and the writing of a value in the
//! place that a target names.
//!
//! - `dispatch`: which handler an action is, and what it answers, which `outcome` lists.
//! - `handlers`: the handlers, a file for each.
//! - `targets`: values written into targets, with `path`, `query`, `status` and `response_field` for each kind.
//! - `answers`, `location`: answers without content, and the location that one names.
#![tactic(auto)]

mod answers;
mod dispatch;
mod handlers;
mod location;
mod outcome;
mod path;
mod query;
mod response_field;
mod status;
mod targets;
#[cfg(test)]
mod tests;

pub use answers::answer;
pub use dispatch::effect;
pub use outcome::{Assign, Effect};
pub use targets::assign;
pub use tow_model::{Action, Bytes, Record, Request, Target};
pub use tow_text::set_field;
