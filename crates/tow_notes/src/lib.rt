//! What a person is told of a handlers text that has no fault and surely does not mean what it
//! says. `notes_on` gives a line for each such thing, as `note: 1:8: ..`.
//!
//! - `remark`: all that can be noted, with its sentences; `note`: a remark at a place, and its line
//! - `value`: what is noted on a value of a call
//! - `names`, `template`: the names that a text binds, and what is noted on the attributes of a
//!   value
//! - `call`: the values of a call, and what is noted on all of them together
//! - `stop`, `level`, `flow`, `mark`: which statements are never reached, and what is left to the
//!   whole folder
//! - `notes`: all notes on a text
//! - `unbuilt`: the calls of a text that `ask` does not do yet
#![tactic(auto)]

mod call;
mod flow;
mod level;
mod mark;
mod names;
mod note;
mod notes;
mod remark;
mod stop;
mod template;
#[cfg(test)]
mod tests;
mod unbuilt;
mod value;

pub use notes::notes_on;
pub use unbuilt::unbuilt_on;
