//! What a line of the input asks.

use crate::path::AskablePath;
use std::alloc::{AllocError, Global};
use std::num::NonZeroU16;

/// One call of a folder, or how many of them have failed.
#[derive(Drop)]
pub enum Question {
    Look(AskablePath),
    /// For at most `room` bytes from the place `from` on, which counts from 0.
    Read {
        path: AskablePath,
        from: u64,
        room: NonZeroU16,
    },
    Names(AskablePath),
    Faults,
}

impl Question {
    /// The question of a line, if it is one and a folder may be asked for its path. Takes memory.
    pub fn read(alloc: Global, line: &str) -> Result<Option<Question>, AllocError> {
        if line == "faults" {
            return Ok(Some(Question::Faults));
        }
        let Some((verb, rest)) = line.split_once(' ') else {
            return Ok(None);
        };
        match verb {
            "look" => Ok(AskablePath::read(alloc, rest)?.map(Question::Look)),
            "names" => Ok(AskablePath::read(alloc, rest)?.map(Question::Names)),
            "read" => part(alloc, rest),
            _ => Ok(None),
        }
    }
}

/// The question for a part of a file: its path, its place, and the room for it, which is not 0.
fn part(alloc: Global, words: &str) -> Result<Option<Question>, AllocError> {
    let Some((path, place)) = words.split_once(' ') else {
        return Ok(None);
    };
    let Some((from, room)) = place.split_once(' ') else {
        return Ok(None);
    };
    let (Ok(from), Ok(room)) = (from.parse(), room.parse()) else {
        return Ok(None);
    };
    let path = AskablePath::read(alloc, path)?;
    Ok(path.map(|path| Question::Read { path, from, room }))
}
