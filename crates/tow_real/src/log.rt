//! The machine's log files.

ghost use Rattle.std.specs.Prelude.{◌≡◌, None};
ghost use Rattle.tow_host.specs.Held.{IsNewLog};

use std::fs::File;
use std::io;
use std::io::Write;
use std::rt::HostRuntime;
use tow_host::{LogSink, Put};

/// A log file of the current folder, which its number names. It is opened at its first line, to
/// append. One counter of faults stands for every connection.
#[derive(Drop)]
pub struct SystemLog {
    rt: HostRuntime,
    number: u32,
    file: Option<File>,
    // a line with its line end, which goes out in one write
    line: Vec<u8>,
    faults: u64,
}

impl SystemLog {
    /// The log file `access-NUMBER.log`. Takes no memory, and touches no file.
    pub(crate) fn new(rt: HostRuntime, number: u32) -> SystemLog
        ensures { IsNewLog (⟦<SystemLog as LogSink>⟧.shows result) }
    {
        SystemLog {
            rt,
            number,
            file: None,
            line: Vec::new(rt.alloc()),
            faults: 0,
        }
    }

    /// Appends a line and its line end. If the system takes a part of it, the rest follows.
    fn append(&mut self, line: &[u8]) -> io::Result<()>
        ensures { self.new.faults ≡ self.old.faults }
    {
        self.line.clear();
        self.line.extend_from_slice(line)?;
        self.line.push(b'\n')?;
        let mut file = match self.file.take() {
            Some(file) => file,
            None => open_log(self.rt, self.number)?,
        };
        let written = file.write_all(&self.line);
        self.file = Some(file);
        written
    }
}

impl LogSink for SystemLog {
    ghost shows = { λ log. record {
      faults = record { own = λ k. 0; shared = log.faults };
      lines = None;
    } };

    fn put(&mut self, _k: u32, _j: u32, _number: u32, line: &[u8]) -> Put {
        match self.append(line) {
            Ok(()) => Put::Stored,
            Err(_error) => {
                self.faults = self.faults.saturating_add(1);
                Put::Failed
            }
        }
    }
}

/// The log file of this number, to append to. It is made if it is not there.
fn open_log(rt: HostRuntime, number: u32) -> io::Result<File> {
    let name = format!(in rt.alloc(); "access-{number}.log")?;
    File::options().append(true).create(true).open(&rt, &name)
}
