//! What is noted on texts without a fault.

use super::remarks::{Noted, REMARKS};
use super::right::RIGHT;
use super::unbuilt::UNBUILT;
use crate::{notes_on, unbuilt_on};
use std::alloc::Global;
use std::process::Abort;
use std::str;
use std::test::Fail;
use tow_model::NoMemory;

fn noted(alloc: Global, text: &[u8]) -> Result<String, NoMemory> {
    words(alloc, notes_on(alloc, text)?.as_slice())
}

fn words(alloc: Global, notes: &[u8]) -> Result<String, NoMemory> {
    match str::from_utf8(notes) {
        Ok(notes) => Ok(String::from_str(alloc, notes)?),
        Err(_error) => Ok(String::from_str(alloc, "no UTF-8")?),
    }
}

fn expect(rt: &impl Abort, alloc: Global, row: &Noted) -> Result<(), Fail> {
    let (text, wanted) = *row;
    let notes = noted(alloc, text)?;
    assert_eq!(rt; notes.as_str(), wanted);
    Ok(())
}

fn expect_all(rt: &impl Abort, alloc: Global, rows: &[Noted]) -> Result<(), Fail> {
    for row in rows {
        expect(rt, alloc, row)?;
    }
    Ok(())
}

fn expect_right(rt: &impl Abort, alloc: Global, texts: &[&[u8]]) -> Result<(), Fail> {
    for text in texts {
        let notes = noted(alloc, text)?;
        assert_eq!(rt; notes.as_str(), "");
    }
    Ok(())
}

/// What is noted on a text that is this piece so many times.
fn noted_many(alloc: Global, piece: &[u8], count: usize) -> Result<String, NoMemory> {
    let mut text = Vec::new(alloc);
    for _one in 0..count {
        text.extend_from_slice(piece)?;
    }
    noted(alloc, text.as_slice())
}

fn expect_many(
    rt: &impl Abort,
    alloc: Global,
    piece: &[u8],
    count: usize,
    wanted: &str,
) -> Result<(), Fail> {
    let notes = noted_many(alloc, piece, count)?;
    assert_eq!(rt; notes.as_str(), wanted);
    Ok(())
}

#[test]
fn the_largest_texts_are_answered(rt: HostRuntime) -> Result<(), Fail> {
    let never =
        "note: 2:1: a statement before this one always stops, so it is never reached: `done`\n";
    expect_many(&rt, rt.alloc(), b"done\n", 13_107, never)?;
    expect_many(&rt, rt.alloc(), b"{", 65_536, "")?;
    expect_many(&rt, rt.alloc(), b"a", 65_536, "")?;
    expect_many(&rt, rt.alloc(), b"{", 65_537, "")
}

#[test]
fn notes_are_on_what_is_not_meant(rt: HostRuntime) -> Result<(), Fail> {
    expect_all(&rt, rt.alloc(), REMARKS)
}

fn expect_unbuilt(rt: &impl Abort, alloc: Global, rows: &[Noted]) -> Result<(), Fail> {
    for (text, wanted) in rows {
        let notes = words(alloc, unbuilt_on(alloc, text)?.as_slice())?;
        assert_eq!(rt; notes.as_str(), *wanted);
    }
    Ok(())
}

#[test]
fn calls_that_are_not_built_are_named(rt: HostRuntime) -> Result<(), Fail> {
    expect_unbuilt(&rt, rt.alloc(), UNBUILT)
}

#[test]
fn nothing_is_noted_on_right_texts(rt: HostRuntime) -> Result<(), Fail> {
    expect_right(&rt, rt.alloc(), RIGHT)
}
