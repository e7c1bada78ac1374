//! The program: its words are read, and a command is run over the machine. `run` carries the promise of every command, and
//! `Status::exit_code` that of the exit status. What a person is told beside that stands on the standard error.
#![tactic(auto)]

mod ask;
mod check;
mod command;
mod lines;
mod output;
mod refusal;
mod returning;
mod site;
mod status;
mod telling;
#[cfg(test)]
mod tests;
mod text;

use command::run;
use status::Status;
use std::alloc::{AllocError, Global};
use std::env;
use std::process::ExitCode;
use std::rt::HostRuntime;
use telling::{tell, tell_want};
use tow_real::SystemHost;

/// The words after the program's name.
fn words_of_program(rt: HostRuntime, alloc: Global) -> Result<Vec<String>, AllocError> {
    let mut words = Vec::new(alloc);
    let Ok(given) = env::args(&rt) else {
        return Ok(words);
    };
    for word in given.skip(1) {
        words.push(word)?;
    }
    Ok(words)
}

fn main(rt: HostRuntime) -> ExitCode {
    let alloc = rt.alloc();
    let status = match words_of_program(rt, alloc) {
        Ok(words) => {
            let mut host = SystemHost::new(rt);
            let status = run(alloc, &words, &mut host);
            tell(rt, &words, &host, status);
            status
        }
        Err(_) => {
            tell_want(rt);
            Status::NoMemory
        }
    };
    status.exit_code()
}
