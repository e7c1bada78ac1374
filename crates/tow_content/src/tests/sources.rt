//! Contents that are read by their source, and dropped.

use super::rows::{Comes, ROWS, Row};
use crate::ContentSource;
use std::alloc::Global;
use std::process::Abort;
use std::test::Fail;
use tow_pipe::Pipe;
use tow_source::{Body, BodySource, Drain, Drained};

fn dropped(comes: Comes) -> Drained {
    match comes {
        Comes::To(_) => Drained::Whole,
        Comes::Bad => Drained::Bad,
        Comes::TooLong => Drained::TooLong,
        Comes::NotYet => Drained::NotYet,
    }
}

/// The content of a row is dropped, which comes in two pieces, the first of so many bytes. Then a further call answers the
/// same, and takes nothing.
fn expect_cut(rt: &impl Abort, alloc: Global, row: &Row, cut: usize) -> Result<(), Fail> {
    let (front, rest) = row.input.split_at(cut.min(row.input.len()));
    let mut pipe = Pipe::new(alloc, 64)?;
    let mut drain = Drain::new(ContentSource::new(row.framing));
    pipe.put(front);
    let _ = drain.run(&mut pipe);
    pipe.put(rest);
    assert_eq!(rt; drain.run(&mut pipe), dropped(row.comes));
    assert_eq!(rt; pipe.len(), row.left);
    assert_eq!(rt; drain.run(&mut pipe), dropped(row.comes));
    assert_eq!(rt; pipe.len(), row.left);
    Ok(())
}

fn expect_row(rt: &impl Abort, alloc: Global, row: &Row) -> Result<(), Fail> {
    for cut in 0..row.input.len() + 1 {
        expect_cut(rt, alloc, row, cut)?;
    }
    Ok(())
}

fn expect_all(rt: &impl Abort, alloc: Global, rows: &[Row]) -> Result<(), Fail> {
    for row in rows {
        expect_row(rt, alloc, row)?;
    }
    Ok(())
}

#[test]
fn each_row_is_dropped_however_it_is_cut(rt: HostRuntime) -> Result<(), Fail> {
    expect_all(&rt, rt.alloc(), ROWS)
}

/// The bytes of a row's content that are read in one slice, if it is long enough.
fn expect_read(rt: &impl Abort, alloc: Global, row: &Row) -> Result<(), Fail> {
    let mut pipe = Pipe::new(alloc, 64)?;
    let mut source = ContentSource::new(row.framing);
    let mut to = [0u8; 64];
    pipe.put(row.input);
    let answer = source.read(&mut pipe, &mut to);
    match (answer, row.comes) {
        (Body::Got(count), Comes::To(wanted)) => {
            assert!(rt; wanted.starts_with(&to[..count]));
        }
        (Body::End, Comes::To(wanted)) => assert_eq!(rt; wanted.len(), 0),
        (Body::Got(_), _) | (Body::NotYet, Comes::NotYet) | (Body::Bad, Comes::Bad) => {}
        (Body::TooLong, Comes::TooLong) => {}
        _ => assert!(rt; false, "another answer"),
    }
    Ok(())
}

fn expect_all_read(rt: &impl Abort, alloc: Global, rows: &[Row]) -> Result<(), Fail> {
    for row in rows {
        expect_read(rt, alloc, row)?;
    }
    Ok(())
}

#[test]
fn each_row_is_read_into_a_slice(rt: HostRuntime) -> Result<(), Fail> {
    expect_all_read(&rt, rt.alloc(), ROWS)
}
