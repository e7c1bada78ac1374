//! What `regex` says of a pattern.

use regex_syntax::{Config, ErrorKind, parse};
use std::alloc::Global;
use std::str;
use tow_model::{Bytes, NoMemory};

/// What `regex` says of the pattern and at which of its bytes, which count from 1; or the pattern
/// itself, if it says nothing.
pub fn refusal(alloc: Global, pattern: &[u8]) -> Result<Bytes, NoMemory> {
    let Ok(text) = str::from_utf8(pattern) else {
        return Ok(Bytes::from_slice(alloc, pattern)?);
    };
    let config = Config {
        utf8: false,
        ..Config::default()
    };
    match parse(alloc, text, &config) {
        Ok(_parsed) => Ok(Bytes::from_slice(alloc, pattern)?),
        Err(error) => said(alloc, error.kind, error.span.start),
    }
}

/// What is said of this kind of error, and at which byte.
fn said(alloc: Global, kind: ErrorKind, start: usize) -> Result<Bytes, NoMemory> {
    if kind == ErrorKind::OutOfMemory {
        return Err(NoMemory);
    }
    let mut said = Vec::from_slice(alloc, kind.message().as_bytes())?;
    let byte = start.saturating_add(1);
    let place = format!(in alloc; ", at byte {byte} of it")?;
    said.extend_from_slice(place.as_bytes())?;
    Ok(Bytes::from_vec(said))
}
