//! What a person is told on the standard error when the program ends. Where that cannot be written,
//! nothing else changes: the exit status and the standard output stay as they are.

use crate::status::Status;
use std::alloc::Global;
use std::io::Write;
use std::rt::HostRuntime;
use tow_explain::explain;
use tow_link::PackMaker;
use tow_model::{Bytes, NoMemory};
use tow_notes::{notes_on, unbuilt_on};
use tow_real::{Failure, SystemHost};
use tow_site::{Fault, compile};

/// Tells why the program failed, if the words named a command, or what of a checked text is surely
/// not meant. Takes memory; without it nothing is told.
pub fn tell(rt: HostRuntime, words: &Vec<String>, host: &SystemHost, status: Status) {
    match status {
        Status::Done => {
            if is_check(words) {
                tell_notes(rt, host);
            }
        }
        Status::Words(_) => {}
        Status::Text => tell_fault(rt, host),
        Status::HostFault => tell_failure(rt, host.text_failure()),
        Status::NoMemory => tell_want(rt),
        Status::StreamFault => tell_failure(rt, host.stream_failure()),
    }
}

/// Tells that memory was short. Takes no memory.
pub fn tell_want(rt: HostRuntime) {
    tell_line(rt, b"tow: the memory is short\n");
}

/// Whether the words are those of `check`, if they are a command.
fn is_check(words: &Vec<String>) -> bool {
    match words.first() {
        Some(word) => word.as_str() == "check",
        None => false,
    }
}

/// Tells what of the text that was read is surely not meant.
fn tell_notes(rt: HostRuntime, host: &SystemHost) {
    if let Some(text) = host.text_read() {
        if let Ok(notes) = notes_on(rt.alloc(), text) {
            tell_line(rt, notes.as_slice());
        }
    }
}

/// Tells what is wrong with the text that was read and refused.
fn tell_fault(rt: HostRuntime, host: &SystemHost) {
    if let Some(text) = host.text_read() {
        if let Ok(told) = explanation(rt.alloc(), text) {
            tell_line(rt, told.as_slice());
        }
    }
}

/// What is wrong with a text that was refused, as a person reads it.
fn explanation(alloc: Global, text: &[u8]) -> Result<Bytes, NoMemory> {
    match compile(alloc, text, &mut PackMaker::new()) {
        Err(Fault::Text { kind, line, column }) => {
            explain(alloc, text, kind, line as usize, column as usize)
        }
        Err(Fault::NoMemory) => Err(NoMemory),
        // for now: the text is right, and uses what is not built yet.
        Ok(_site) => unbuilt_on(alloc, text),
    }
}

/// Tells what the machine failed at, and why.
fn tell_failure(rt: HostRuntime, failure: Failure<'_>) {
    if let Ok(line) = format!(in rt.alloc(); "tow: {failure}\n") {
        tell_line(rt, line.as_bytes());
    }
}

/// Writes to the standard error, and goes on if that fails.
fn tell_line(rt: HostRuntime, bytes: &[u8]) {
    let _ = rt.stderr().write_all(bytes);
}
