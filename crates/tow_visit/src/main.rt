//! Asks a real folder, command by command, so that a script can change its files between two of
//! them. Its one word is the name of the directory. Each line of the input is a command, and is
//! answered with one line, which is written at once:
//!
//! | command | answer |
//! |---|---|
//! | `look PATH` | `file LENGTH SECOND`, `directory` or `absent` |
//! | `read PATH FROM ROOM` | `got BYTES`: what one read of at most `ROOM` bytes gave |
//! | `names PATH` | `names` and each name, a directory's with a `/` after it |
//! | `faults` | `faults COUNT` |
//!
//! Paths, bytes and names are percent-encoded. An answer may also be `failed`, or `not askable` for
//! a line that is none of these or whose path no folder may be asked for. The exit status is 0 at
//! the end of the input, 64 without a word, 66 if there is no folder, 71 if memory is short for it,
//! and 74 if the input or the output fails.
#![tactic(auto)]

mod answering;
mod path;
mod question;

use answering::answer;
use question::Question;
use std::process::ExitCode;
use std::rt::HostRuntime;
use std::{env, io};
use tow_disk::{DiskFolder, NoFolder};

/// The first word after the program's name.
fn directory(rt: HostRuntime) -> Option<String> {
    env::args(&rt).ok()?.nth(1)
}

/// Answers each line of the input.
fn converse(rt: HostRuntime, folder: &mut DiskFolder) -> io::Result<()> {
    for line in rt.lines(rt.alloc()) {
        let answer = match Question::read(rt.alloc(), line?.as_str())? {
            Some(question) => answer(rt.alloc(), folder, &question)?,
            None => String::from_str(rt.alloc(), "not askable")?,
        };
        println!(rt; "{answer}")?;
    }
    Ok(())
}

/// Says in a line that there is no folder, and gives the exit status for that.
fn without_folder(rt: HostRuntime, dir: &str, why: NoFolder) -> u8 {
    match why {
        NoFolder::Missing(error) => {
            let _told = println!(rt; "cannot read the folder '{dir}': {error}");
            66
        }
        NoFolder::NoMemory => 71,
    }
}

fn main(rt: HostRuntime) -> ExitCode {
    let Some(dir) = directory(rt) else {
        return ExitCode::from(64);
    };
    let code = match DiskFolder::new(rt, dir.as_str()) {
        Ok(mut folder) => match converse(rt, &mut folder) {
            Ok(()) => 0,
            Err(_) => 74,
        },
        Err(why) => without_folder(rt, dir.as_str(), why),
    };
    ExitCode::from(code)
}
