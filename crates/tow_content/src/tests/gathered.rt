//! Contents that are gathered, however they are cut.

use super::rows::{Comes, ROWS, Row};
use crate::{Gathered, Gathering};
use std::alloc::Global;
use std::process::Abort;
use std::test::Fail;
use tow_model::{Content, NoMemory};
use tow_pipe::Pipe;

/// What an input came to, and how many bytes are left in the pipe.
#[derive(Drop)]
struct Seen {
    answer: Gathered,
    left: usize,
}

/// What the input of a row came to that comes in two pieces, the first of so many bytes.
fn gather_cut(alloc: Global, row: &Row, cut: usize) -> Result<Seen, NoMemory> {
    let (front, rest) = row.input.split_at(cut.min(row.input.len()));
    let mut pipe = Pipe::new(alloc, 64)?;
    let mut gathering = Gathering::new(alloc, row.framing);
    pipe.put(front);
    let answer = match gathering.run(alloc, &mut pipe) {
        Gathered::NotYet => {
            pipe.put(rest);
            gathering.run(alloc, &mut pipe)
        }
        end => {
            pipe.put(rest);
            end
        }
    };
    let left = pipe.len();
    Ok(Seen { answer, left })
}

/// What the input of a row came to that comes byte by byte.
fn gather_bytes(alloc: Global, row: &Row) -> Result<Seen, NoMemory> {
    let mut pipe = Pipe::new(alloc, 64)?;
    let mut gathering = Gathering::new(alloc, row.framing);
    let mut answer = gathering.run(alloc, &mut pipe);
    for byte in row.input.chunks(1) {
        pipe.put(byte);
        if matches!(answer, Gathered::NotYet) {
            answer = gathering.run(alloc, &mut pipe);
        }
    }
    let left = pipe.len();
    Ok(Seen { answer, left })
}

fn expect(rt: &impl Abort, seen: &Seen, row: &Row) {
    match (&seen.answer, row.comes) {
        (Gathered::Content(Content::Whole(bytes)), Comes::To(wanted)) => {
            assert_eq!(rt; bytes.as_slice(), wanted);
        }
        (Gathered::Content(Content::Bad), Comes::Bad)
        | (Gathered::Content(Content::TooLong), Comes::TooLong)
        | (Gathered::NotYet, Comes::NotYet) => {}
        _ => assert!(rt; false, "another end"),
    }
    assert_eq!(rt; seen.left, row.left);
}

fn expect_row(rt: &impl Abort, alloc: Global, row: &Row) -> Result<(), Fail> {
    for cut in 0..row.input.len() + 1 {
        let seen = gather_cut(alloc, row, cut)?;
        expect(rt, &seen, row);
    }
    let seen = gather_bytes(alloc, row)?;
    expect(rt, &seen, row);
    Ok(())
}

fn expect_all(rt: &impl Abort, alloc: Global, rows: &[Row]) -> Result<(), Fail> {
    for row in rows {
        expect_row(rt, alloc, row)?;
    }
    Ok(())
}

#[test]
fn each_row_comes_to_its_end_however_it_is_cut(rt: HostRuntime) -> Result<(), Fail> {
    expect_all(&rt, rt.alloc(), ROWS)
}
