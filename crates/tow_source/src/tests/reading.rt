use crate::{Body, BodySource};
use std::alloc::AllocError;
use tow_pipe::Pipe;

/// Reads from a text that comes in pieces of one size, until an end or the end of the text.
pub fn read_in_pieces<S: BodySource>(
    source: &mut S,
    pipe: &mut Pipe,
    text: &[u8],
    piece: usize,
    to: &mut [u8],
    given: &mut Vec<u8>,
) -> Result<Body, AllocError> {
    let mut answer = Body::NotYet;
    for part in text.chunks(piece.max(1)) {
        pipe.put(part);
        answer = read_on(source, pipe, to, given)?;
    }
    Ok(answer)
}

/// Reads from a text that comes in two pieces, the first of so many bytes.
pub fn read_cut<S: BodySource>(
    source: &mut S,
    pipe: &mut Pipe,
    text: &[u8],
    cut: usize,
    to: &mut [u8],
    given: &mut Vec<u8>,
) -> Result<Body, AllocError> {
    let (front, rest) = text.split_at(cut.min(text.len()));
    pipe.put(front);
    let _ = read_on(source, pipe, to, given)?;
    pipe.put(rest);
    read_on(source, pipe, to, given)
}

// Reads until an answer gives no bytes.
fn read_on<S: BodySource>(
    source: &mut S,
    pipe: &mut Pipe,
    to: &mut [u8],
    given: &mut Vec<u8>,
) -> Result<Body, AllocError> {
    if to.is_empty() {
        return Ok(Body::NotYet);
    }
    for _ in 0..u32::MAX {
        match source.read(pipe, to) {
            Body::Got(count) => given.extend_from_slice(&to[..count])?,
            answer => return Ok(answer),
        }
    }
    Ok(Body::NotYet)
}
