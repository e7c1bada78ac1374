//! The closing work of exchanges.

use crate::{Closing, Work};
use sqlite_items::Items;
use std::alloc::Global;
use std::process::Abort;
use std::test::Fail;
use tow_exchange::Exchange;
use tow_model::{
    Action, Bytes, Framing, List, Listener, NoMemory, Piece, Request, Statement, Template, Version,
};
use tow_program::{Program, program_of};

fn request(alloc: Global) -> Result<Request, NoMemory> {
    Ok(Request {
        method: Bytes::from_slice(alloc, b"GET")?,
        target: Bytes::from_slice(alloc, b"/a")?,
        version: Version::V11,
        fields: List::new(alloc),
        url: Bytes::from_slice(alloc, b"/a")?,
        path: Bytes::from_slice(alloc, b"/a")?,
        query: None,
        framing: Framing::Empty,
        expects: false,
        keep: true,
        peer: 0,
    })
}

fn format(alloc: Global, text: &[u8]) -> Result<Template, NoMemory> {
    let mut pieces = List::new(alloc);
    pieces.push(Piece::Literal(Bytes::from_slice(alloc, text)?))?;
    Ok(pieces)
}

/// A program with the logs `a` and `b`.
fn program(alloc: Global) -> Result<Program, NoMemory> {
    let mut tree = Items::new(alloc);
    tree.push(Statement::Act(Action::AccessLog {
        number: 0,
        format: format(alloc, b"a")?,
    }))?;
    tree.push(Statement::Act(Action::AccessLog {
        number: 1,
        format: format(alloc, b"b")?,
    }))?;
    program_of(alloc, tree)
}

/// The closing work of an exchange with these listeners.
fn closing(alloc: Global, listeners: &[Listener]) -> Result<Closing, NoMemory> {
    let request = request(alloc)?;
    let mut exchange = Exchange::new(alloc, 0, 1, request, 0)?;
    for listener in listeners {
        exchange.add_listener(alloc, *listener)?;
    }
    let program = program(alloc)?;
    Ok(Closing::new(alloc, &program, exchange))
}

/// What a listener did, in one byte: the line that it told, or the number of the limit that it left.
fn shown(work: &Work) -> u8 {
    match work {
        Work::Leave(limit) => b'0' + (*limit % 10) as u8,
        Work::Tell { line, .. } => match line {
            Some(line) if line.len() == 1 => line.as_slice()[0],
            Some(_) => b'+',
            None => b'-',
        },
    }
}

/// Listeners in the order in which they are added, and what they do.
type Row = (&'static [Listener], &'static [u8]);

const ROWS: [Row; 5] = [
    (&[], b""),
    (&[Listener::Log(0)], b"a"),
    (
        &[Listener::Leave(0), Listener::Log(0), Listener::Leave(1)],
        b"1a0",
    ),
    (
        &[Listener::Log(0), Listener::Log(1), Listener::Log(0)],
        b"aba",
    ),
    (
        &[
            Listener::Log(1),
            Listener::Leave(7),
            Listener::Log(0),
            Listener::Leave(7),
        ],
        b"7a7b",
    ),
];

/// What the listeners do that are left.
fn done_by(alloc: Global, closing: &mut Closing) -> Result<Vec<u8>, Fail> {
    let mut done = Vec::new(alloc);
    for _ in 0..8 {
        match closing.next() {
            Some(work) => done.push(shown(&work))?,
            None => return Ok(done),
        }
    }
    Err("no end".into())
}

/// What these listeners do, before or after the record is taken.
fn does(alloc: Global, listeners: &[Listener], is_taken: bool) -> Result<Vec<u8>, Fail> {
    let mut closing = closing(alloc, listeners)?;
    if is_taken && closing.take_record(alloc).path.len() != 2 {
        return Err("another record".into());
    }
    done_by(alloc, &mut closing)
}

fn expect_all(rt: &impl Abort, alloc: Global, rows: &[Row], is_taken: bool) -> Result<(), Fail> {
    for (i, (listeners, want)) in rows.iter().enumerate() {
        let done = does(alloc, listeners, is_taken)?;
        assert_eq!(rt; done.as_slice(), *want, "row {i}");
    }
    Ok(())
}

#[test]
fn listeners_run_once_the_last_first(rt: HostRuntime) -> Result<(), Fail> {
    expect_all(&rt, rt.alloc(), &ROWS, false)
}

#[test]
fn listeners_run_once_the_record_is_taken(rt: HostRuntime) -> Result<(), Fail> {
    expect_all(&rt, rt.alloc(), &ROWS, true)
}
