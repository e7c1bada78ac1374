//! What a person is told of a failure of the machine.

use std::fmt;
use std::fmt::{Display, Formatter};
use std::io::Error;

/// What the machine was asked for when it failed.
#[derive(Clone, Copy)]
pub enum Task<'a> {
    /// To read the text of this name.
    Text(&'a str),
    /// To give the folder of this name.
    Folder(&'a str),
    Input,
    Output,
}

/// What the machine failed at, and why, in the system's own words where it gave some.
#[derive(Clone, Copy)]
pub struct Failure<'a> {
    pub task: Task<'a>,
    pub reason: Option<Error>,
}

impl Display for Task<'_> {
    fn fmt<W: fmt::Write>(&self, formatter: &mut Formatter<W>) -> fmt::Result {
        match self {
            Task::Text(name) => write!(formatter, "cannot read the handlers text '{name}'"),
            Task::Folder(name) => write!(formatter, "cannot read the folder '{name}'"),
            Task::Input => formatter.write_str("cannot read the standard input"),
            Task::Output => formatter.write_str("cannot write to the standard output"),
        }
    }
}

impl Display for Failure<'_> {
    fn fmt<W: fmt::Write>(&self, formatter: &mut Formatter<W>) -> fmt::Result {
        match self.reason {
            Some(reason) => write!(formatter, "{}: {reason}", self.task),
            None => Display::fmt(&self.task, formatter),
        }
    }
}
