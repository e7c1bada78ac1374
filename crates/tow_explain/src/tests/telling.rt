//! What texts with a fault are told.

use super::faults::FAULTS;
use super::parameters::PARAMETERS;
use super::seconds::SECONDS;
use super::spellings::SPELLINGS;
use super::tokens::TOKENS;
use crate::explain;
use std::alloc::{AllocError, Global};
use std::process::Abort;
use std::str;
use std::test::Fail;
use tow_language::{HANDLERS, Kind, PREDICATES};
use tow_model::NoMemory;

/// A text, the kind of its fault with line and column, and what is told.
pub(crate) type Row = (&'static [u8], Kind, usize, usize, &'static str);

fn told_at(
    alloc: Global,
    text: &[u8],
    kind: Kind,
    line: usize,
    column: usize,
) -> Result<String, NoMemory> {
    let told = explain(alloc, text, kind, line, column)?;
    match str::from_utf8(told.as_slice()) {
        Ok(told) => Ok(String::from_str(alloc, told)?),
        Err(_error) => Ok(String::from_str(alloc, "no UTF-8")?),
    }
}

fn expect(rt: &impl Abort, alloc: Global, row: &Row) -> Result<(), Fail> {
    let (text, kind, line, column, wanted) = *row;
    let told = told_at(alloc, text, kind, line, column)?;
    assert_eq!(rt; told.as_str(), wanted);
    Ok(())
}

fn expect_all(rt: &impl Abort, alloc: Global, rows: &[Row]) -> Result<(), Fail> {
    for row in rows {
        expect(rt, alloc, row)?;
    }
    Ok(())
}

/// Whether the words stand in what is told.
fn expect_words(rt: &impl Abort, alloc: Global, row: &Row) -> Result<(), Fail> {
    let (text, kind, line, column, words) = *row;
    let told = told_at(alloc, text, kind, line, column)?;
    assert!(rt; told.as_str().contains(words), "{words}");
    Ok(())
}

fn expect_all_words(rt: &impl Abort, alloc: Global, rows: &[Row]) -> Result<(), Fail> {
    for row in rows {
        expect_words(rt, alloc, row)?;
    }
    Ok(())
}

#[test]
fn faults_of_each_kind_are_told(rt: HostRuntime) -> Result<(), Fail> {
    expect_all_words(&rt, rt.alloc(), FAULTS)
}

/// Whether a text of one byte so many times is told to be too long at this place.
fn expect_too_long(
    rt: &impl Abort,
    alloc: Global,
    byte: u8,
    line: usize,
    column: usize,
) -> Result<(), Fail> {
    let text = vec![in alloc; byte; 65_537]?;
    let told = told_at(alloc, text.as_slice(), Kind::TooLong, line, column)?;
    assert!(rt;
        told.as_str()
            .contains("the text goes on past its limit of 65536 bytes")
    );
    Ok(())
}

#[test]
fn texts_that_are_too_long_are_told(rt: HostRuntime) -> Result<(), Fail> {
    expect_too_long(&rt, rt.alloc(), b'(', 1, 65_537)?;
    expect_too_long(&rt, rt.alloc(), b'\n', 65_537, 1)?;
    expect_too_long(&rt, rt.alloc(), 0xff, 1, 65_537)
}

#[test]
fn misplaced_tokens_are_told(rt: HostRuntime) -> Result<(), Fail> {
    expect_all(&rt, rt.alloc(), TOKENS)
}

#[test]
fn wrong_parameters_are_told(rt: HostRuntime) -> Result<(), Fail> {
    expect_all(&rt, rt.alloc(), PARAMETERS)
}

#[test]
fn two_of_each_kind_are_told_in_whole(rt: HostRuntime) -> Result<(), Fail> {
    expect_all(&rt, rt.alloc(), SECONDS)
}

#[test]
fn wrong_spellings_are_told(rt: HostRuntime) -> Result<(), Fail> {
    expect_all(&rt, rt.alloc(), SPELLINGS)
}

/// Whether the name stands in what is told.
fn expect_name(rt: &impl Abort, told: &String, name: &[u8]) {
    match str::from_utf8(name) {
        Ok(name) => assert!(rt; told.as_str().contains(name), "{name}"),
        Err(_error) => assert!(rt; false),
    }
}

#[test]
fn each_name_of_the_tables_is_told(rt: HostRuntime) -> Result<(), Fail> {
    let predicates = told_at(rt.alloc(), b"x -> done", Kind::UnknownName, 1, 1)?;
    for test in PREDICATES {
        expect_name(&rt, &predicates, test.signature().name);
    }
    let handlers = told_at(rt.alloc(), b"x", Kind::UnknownName, 1, 1)?;
    for handler in HANDLERS {
        expect_name(&rt, &handlers, handler.signature().name);
    }
    Ok(())
}

fn push(text: &mut String, character: char, count: usize) -> Result<(), AllocError> {
    for _one in 0..count {
        text.push(character)?;
    }
    Ok(())
}

/// What is told of a line of letters that goes on past the limit of a text.
fn cut_line(alloc: Global) -> Result<String, AllocError> {
    let mut told = String::from_str(alloc, "1 | ...")?;
    push(&mut told, 'a', 61)?;
    told.push_str("\n  | ")?;
    push(&mut told, ' ', 63)?;
    told.push_str("^ the text goes on past its limit of 65536 bytes\n")?;
    told.push_str("  = leave out what is not needed: a text has at most 65536 bytes\n")?;
    Ok(told)
}

fn expect_cut(rt: &impl Abort, alloc: Global, length: usize) -> Result<(), Fail> {
    let text = vec![in alloc; b'a'; length]?;
    let told = told_at(alloc, text.as_slice(), Kind::TooLong, 1, length)?;
    let wanted = cut_line(alloc)?;
    assert_eq!(rt; told.as_str(), wanted.as_str());
    Ok(())
}

fn expect_empty_line(rt: &impl Abort, alloc: Global) -> Result<(), Fail> {
    let text = vec![in alloc; b'\n'; 65_537]?;
    let told = told_at(alloc, text.as_slice(), Kind::TooLong, 65_537, 1)?;
    let wanted =
        "65537 | \n      | ^ the text goes on past its limit of 65536 bytes\n      = leave out what is not needed: a text has at most 65536 bytes\n";
    assert_eq!(rt; told.as_str(), wanted);
    Ok(())
}

fn expect_nowhere(rt: &impl Abort, alloc: Global, text: &[u8]) -> Result<(), Fail> {
    let told = told_at(alloc, text, Kind::TooDeep, 9, 9)?;
    let wanted = "9 | \n  | ^ this opens level 33\n";
    assert!(rt; told.as_str().starts_with(wanted));
    Ok(())
}

#[test]
fn long_lines_are_cut(rt: HostRuntime) -> Result<(), Fail> {
    expect_cut(&rt, rt.alloc(), 65_537)?;
    expect_empty_line(&rt, rt.alloc())
}

#[test]
fn no_place_outside_the_text_stops_it(rt: HostRuntime) -> Result<(), Fail> {
    expect_nowhere(&rt, rt.alloc(), b"done")
}
