//! Fronts of an input written by hand, and what a look at them finds.

ghost use Rattle.std.specs.Prelude.{◌≤◌, length};
ghost use Rattle.tow_model.specs.declared.limits.TheConstants.{MAX_HEAD_LEN};

use crate::{NextHead, next_head};
use std::alloc::{AllocError, Global};
use std::process::Abort;
use std::test::Fail;
use tow_model::limits::{LOCAL_PEER, MAX_HEAD_LEN};

/// What a look finds, without the request.
#[derive(Clone, Copy, Debug, PartialEq, Eq)]
enum Told {
    Head(usize),
    Partial,
    Nothing,
    Refuse(u16),
    NoMemory,
}

fn answer_to(alloc: Global, bytes: &[u8], ended: bool) -> Told
    requires { length bytes.now ≤ MAX_HEAD_LEN }
{
    match next_head(alloc, bytes, ended, LOCAL_PEER) {
        NextHead::Head(_, used) => Told::Head(used),
        NextHead::Partial => Told::Partial,
        NextHead::Nothing => Told::Nothing,
        NextHead::Refuse(status) => Told::Refuse(status),
        NextHead::NoMemory => Told::NoMemory,
    }
}

/// The bytes get the one answer while more may come, and the other where they have ended.
fn expect_answer(rt: &impl Abort, alloc: Global, bytes: &[u8], open: Told, ended: Told) {
    assert!(rt; bytes.len() <= MAX_HEAD_LEN);
    assert_eq!(rt; answer_to(alloc, bytes, false), open, "open: {bytes:?}");
    assert_eq!(rt; answer_to(alloc, bytes, true), ended, "ended: {bytes:?}");
}

fn expect_answers(rt: &impl Abort, alloc: Global, texts: &[&str], open: Told, ended: Told) {
    for text in texts {
        expect_answer(rt, alloc, text.as_bytes(), open, ended);
    }
}

/// The front, the byte as often as it takes to make `len` bytes of all, and the back.
fn filled(
    alloc: Global,
    front: &[u8],
    byte: u8,
    back: &[u8],
    len: usize,
) -> Result<Vec<u8>, AllocError> {
    let mut bytes = Vec::from_slice(alloc, front)?;
    for _ in front.len()..len.saturating_sub(back.len()) {
        bytes.push(byte)?;
    }
    bytes.extend_from_slice(back)?;
    Ok(bytes)
}

/// A head with a Host line and so many lines behind it.
fn many_lines(alloc: Global, count: usize) -> Result<Vec<u8>, AllocError> {
    let mut bytes = Vec::from_slice(alloc, b"GET /hi HTTP/1.1\r\nHost: a\r\n")?;
    for _ in 0..count {
        bytes.extend_from_slice(b"A: b\r\n")?;
    }
    bytes.extend_from_slice(b"\r\n")?;
    Ok(bytes)
}

#[test]
fn fronts_are_told_apart(rt: HostRuntime) {
    let alloc = rt.alloc();
    expect_answers(
        &rt,
        alloc,
        &["", "\r\n", "\r\r"],
        Told::Partial,
        Told::Nothing,
    );
    expect_answers(
        &rt,
        alloc,
        &["GET / HT", "\n\nGE"],
        Told::Partial,
        Told::Refuse(400),
    );
    let hopeless = [
        "GET /hi HTTP/2",
        "\r\rG",
        "GET /hi HTTP/1.1\r\nHost : a\r\n\r\n",
    ];
    expect_answers(&rt, alloc, &hopeless, Told::Refuse(400), Told::Refuse(400));
    let hi = [
        "GET /hi HTTP/1.1\r\nHost: a\r\n\r\n",
        "GET /hi HTTP/1.1\r\nHost: a\r\n\r\nGET /",
    ];
    expect_answers(&rt, alloc, &hi, Told::Head(29), Told::Head(29));
    let blank_before = ["\r\nGET /hi HTTP/1.1\r\nHost: a\r\n\r\n\r\r"];
    expect_answers(&rt, alloc, &blank_before, Told::Head(31), Told::Head(31));
    let short_ends = ["GET /hi HTTP/1.1\nhOST:\n\n"];
    expect_answers(&rt, alloc, &short_ends, Told::Head(24), Told::Head(24));
}

#[test]
fn bounds_are_kept(rt: HostRuntime) -> Result<(), Fail> {
    let alloc = rt.alloc();
    let front = b"GET /hi HTTP/1.1\r\nHost: a\r\nA: ";
    expect_answer(
        &rt,
        alloc,
        &many_lines(alloc, 199)?,
        Told::Head(1223),
        Told::Head(1223),
    );
    expect_answer(
        &rt,
        alloc,
        &many_lines(alloc, 200)?,
        Told::Partial,
        Told::Refuse(400),
    );
    let full = filled(alloc, front, b'x', b"\r\n\r\n", 65536)?;
    expect_answer(&rt, alloc, &full, Told::Head(65536), Told::Head(65536));
    let unfinished = filled(alloc, front, b'x', b"\r\n\r", 65536)?;
    expect_answer(
        &rt,
        alloc,
        &unfinished,
        Told::Refuse(400),
        Told::Refuse(400),
    );
    let shorter = filled(alloc, front, b'x', b"\r\n\r", 65535)?;
    expect_answer(&rt, alloc, &shorter, Told::Partial, Told::Refuse(400));
    let line_ends = filled(alloc, b"", b'\n', b"", 65536)?;
    expect_answer(&rt, alloc, &line_ends, Told::Refuse(400), Told::Refuse(400));
    let fewer = filled(alloc, b"", b'\n', b"", 65535)?;
    expect_answer(&rt, alloc, &fewer, Told::Partial, Told::Nothing);
    Ok(())
}
