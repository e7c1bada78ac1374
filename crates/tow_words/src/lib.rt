//! The words of a command line: which command they name, with which arguments, or why they are none.
#![tactic(auto)]

mod bounds;
mod command;
mod forms;
mod given;
mod words;

pub use bounds::{
    DEFAULT_CONNECTIONS, DEFAULT_LOOPS, DEFAULT_SLOTS, DEFAULT_WORKERS, LAST_MOMENT,
    MAX_CONNECTIONS, MAX_DRILL, MAX_LOOPS, MAX_SLOTS, MAX_WORKERS,
};
pub use command::{Command, Options, Why};
pub use words::{Words, read_words};

#[cfg(test)]
mod tests;
