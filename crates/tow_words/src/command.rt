//! The commands, and why words are none.

use thiserror::Error;

/// A command with its arguments, as the words give them.
#[derive(Clone, Copy, Debug)]
pub enum Command<'a> {
    Check {
        text: &'a str,
    },
    /// The moment is a second since 1970, before the year 10000; without one it is the clock's.
    Ask {
        dir: &'a str,
        text: &'a str,
        moment: Option<u64>,
    },
    /// The number of connections, at most 1,000.
    Drill {
        number: u32,
    },
    /// The address is a host and a port, as they were written.
    Serve {
        dir: &'a str,
        text: &'a str,
        address: &'a str,
        options: Options,
    },
}

/// How a server is set up.
#[derive(Clone, Copy, Debug, PartialEq, Eq)]
pub struct Options {
    /// Threads that wait for the machine, 1 to 16.
    pub loops: u32,
    /// Threads that ask for files, 1 to 64.
    pub workers: u32,
    /// Connections at one time, 1 to 1,024.
    pub slots: u32,
    /// Connections of a run, at most 2,147,483,647, for which 0 stands, too.
    pub connections: u32,
}

/// Why the words are no command.
#[derive(Clone, Copy, Debug, PartialEq, Eq, Error)]
pub enum Why {
    /// There is no first word, or it is no command's name.
    #[error("no command has this name")]
    NoCommand,
    /// The words after the command's name are of no form that it has.
    #[error("the command does not take these words")]
    BadWords,
}
