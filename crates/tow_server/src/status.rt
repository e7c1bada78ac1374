//! How a command ends, and the exit status of the program.

ghost use Rattle.std.specs.Prelude.{◌≡◌};
ghost use Rattle.std.specs.Process.{exit_status};
ghost use Rattle.tow_server.specs.Codes.{code_of};

use std::fmt;
use std::fmt::{Display, Formatter};
use std::process::ExitCode;
use tow_words::Why;

/// How a command ended.
#[derive(Clone, Copy, Debug, PartialEq, Eq)]
pub enum Status {
    /// All was done.
    Done,
    /// The words are no command.
    Words(Why),
    /// The text was read and does not compile, or uses what is not built.
    Text,
    /// The host failed, or the source of the text.
    HostFault,
    NoMemory,
    /// The input or the output failed.
    StreamFault,
}

impl Status {
    /// The exit status of the program, as in sysexits.
    pub fn code(&self) -> u8
        ensures { result ≡ code_of self.now }
    {
        match self {
            Status::Done => 0,
            Status::Words(_) => 64,
            Status::Text => 65,
            Status::HostFault => 66,
            Status::NoMemory => 71,
            Status::StreamFault => 74,
        }
    }
}

impl Status {
    /// The same, as the program ends with it.
    pub fn exit_code(&self) -> ExitCode
        ensures { exit_status result ≡ code_of self.now }
    {
        ExitCode::from(self.code())
    }
}

impl Display for Status {
    fn fmt<W: fmt::Write>(&self, formatter: &mut Formatter<W>) -> fmt::Result {
        match self {
            Status::Done => formatter.write_str("all was done"),
            Status::Words(why) => Display::fmt(why, formatter),
            Status::Text => formatter.write_str("the text is refused"),
            Status::HostFault => formatter.write_str("the text could not be had or read"),
            Status::NoMemory => formatter.write_str("the memory is short"),
            Status::StreamFault => formatter.write_str("the input or the output failed"),
        }
    }
}
