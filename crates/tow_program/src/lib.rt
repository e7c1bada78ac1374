//! A handlers text as a flat program: a list of instructions whose jumps go forward only. A request is walked by one
//! loop over it, whatever the text. Each statement's instructions do what its plan of tow_semantics says; `laws` states
//! it, for a predicate, a statement and a whole text.
#![tactic(auto)]

mod backwards;
mod conditions;
mod instruction;
pub mod laws;
mod program;
mod run;
mod statements;
mod table;
#[cfg(test)]
mod tests;

pub use instruction::Instruction;
pub use program::{Program, program_of};
