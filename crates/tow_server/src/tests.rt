//! The program's rows over a host in memory, with the expected bytes written out.

ghost use Rattle.std.specs.Prelude.{◌≡◌, IfOk, true};

mod handlers;
mod predicates;
mod texts;

use crate::command::run;
use crate::status::Status;
use std::alloc::{AllocError, Global};
use std::test::Fail;
use tow_host::{MemoryClock, MemoryHost, MemoryTexts, NamedText};
use tow_link::{Joined, KeyCounts, MemoryMaker, MemorySink, MemorySource};
use tow_words::Why;

/// What a host has: the text `t`, the input, cut in two at a place, the patterns that it refuses as too large, and the
/// numbers of the calls that fail.
#[derive(Clone, Copy)]
pub struct Case<'a> {
    pub text: &'a [u8],
    pub input: &'a [u8],
    pub cut: usize,
    pub failing_texts: &'a [u64],
    pub failing_text_reads: &'a [u64],
    pub failing_reads: &'a [u64],
    pub failing_writes: &'a [u64],
    pub large_patterns: &'a [&'a [u8]],
}

pub const HI: &[u8] = b"path('/hi') -> response-code(204)";

pub const GET_HI: &[u8] = b"GET /hi HTTP/1.1\r\nHost: a\r\n\r\n";

pub const HI_ANSWER: &[u8] =
    b"HTTP/1.1 204 No Content\r\ndate: Thu, 01 Jan 1970 00:00:00 GMT\r\n\r\n";

pub const NOT_FOUND: &[u8] =
    b"HTTP/1.1 404 Not Found\r\ncontent-length: 0\r\ndate: Thu, 01 Jan 1970 00:00:00 GMT\r\n\r\n";

const BAD: &[u8] =
    b"HTTP/1.1 400 Bad Request\r\nconnection: close\r\ncontent-length: 0\r\ndate: Thu, 01 Jan 1970 00:00:00 GMT\r\n\r\n";

const NOT_BUILT: &[u8] =
    b"HTTP/1.1 501 Not Implemented\r\nconnection: close\r\ncontent-length: 0\r\ndate: Thu, 01 Jan 1970 00:00:00 GMT\r\n\r\n";

const USAGE: &[u8] =
    b"usage: check TEXT | ask DIR TEXT [--moment N] | drill N | serve DIR TEXT ADDRESS [--loops N] [--workers N] [--slots N] [--connections N]\n";

pub const ASK: [&str; 5] = ["ask", "d", "t", "--moment", "0"];

pub const CHECK: [&str; 2] = ["check", "t"];

pub fn plain<'a>(text: &'a [u8], input: &'a [u8]) -> Case<'a> {
    Case {
        text,
        input,
        cut: 0,
        failing_texts: &[],
        failing_text_reads: &[],
        failing_reads: &[],
        failing_writes: &[],
        large_patterns: &[],
    }
}

fn source(
    alloc: Global,
    bytes: &[u8],
    cut: usize,
    failing: &[u64],
) -> Result<MemorySource, AllocError> {
    let cut = cut.min(bytes.len());
    let mut pieces = Vec::new(alloc);
    pieces.push(bytes[..cut].to_vec(alloc)?)?;
    pieces.push(bytes[cut..].to_vec(alloc)?)?;
    MemorySource::of_pieces(alloc, pieces, failing.to_vec(alloc)?)
}

fn host_of(alloc: Global, case: &Case) -> Result<MemoryHost, AllocError>
    ensures home { IfOk result (λ host. host.is_home ≡ true) }
{
    let mut texts = Vec::new(alloc);
    texts.push(NamedText {
        name: String::from_str(alloc, "t")?,
        source: source(alloc, case.text, 0, case.failing_text_reads)?,
    })?;
    let streams = Joined {
        input: source(alloc, case.input, case.cut, case.failing_reads)?,
        output: MemorySink::new(alloc, case.failing_writes.to_vec(alloc)?),
    };
    let failing = case.failing_texts.to_vec(alloc)?;
    let mut larges = KeyCounts::new(alloc);
    for pattern in case.large_patterns {
        larges.begin(pattern.to_vec(alloc)?)?;
    }
    let host = MemoryHost::new(
        alloc,
        MemoryTexts::new(texts),
        streams,
        MemoryClock::fixed(7),
        failing,
    );
    Ok(host.with_maker(MemoryMaker::new(larges)))
}

/// The status of these words over such a host, and what was written.
pub fn answered(
    alloc: Global,
    case: &Case,
    words: &[&str],
) -> Result<(Status, Vec<u8>), AllocError> {
    let mut owned = Vec::new(alloc);
    for word in words {
        owned.push(String::from_str(alloc, word)?)?;
    }
    let mut host = host_of(alloc, case)?;
    let status = run(alloc, &owned, &mut host);
    let written = match host.output() {
        Some(sink) => sink.written().to_vec(alloc)?,
        None => Vec::new(alloc),
    };
    Ok((status, written))
}

const TWO: &[u8] =
    b"path('/a') -> response-code(410)\n\npath('/a') -> response-code(204)\nresponse-code(403)\n";

const SPACED: &[u8] = b"path('/a b') -> response-code(204)";

/// Texts, inputs, and what is written.
const ANSWERED: [(&[u8], &[u8], &[u8]); 20] = [
    (HI, GET_HI, HI_ANSWER),
    (b"", b"GET / HTTP/1.1\r\nHost: a\r\n\r\n", NOT_FOUND),
    (HI, b"", b""),
    (HI, b"\r\n", b""),
    (HI, b"\r\r", b""),
    (HI, b"GET / HT", BAD),
    (HI, b"GET /hi HTTP/1.1\r\n\r\n", BAD),
    (HI, b"GET /hi HTTP/1.1\r\nHost: a\r\nHost: a\r\n\r\n", BAD),
    (HI, b"GET hi HTTP/1.1\r\nHost: a\r\n\r\n", BAD),
    (HI, b"GET /hi?x HTTP/1.1\r\nHost: a\r\n\r\n", HI_ANSWER),
    (SPACED, b"GET /a%20b HTTP/1.1\r\nHost: a\r\n\r\n", HI_ANSWER),
    (
        SPACED,
        b"GET /x/../a%20b HTTP/1.1\r\nHost: a\r\n\r\n",
        HI_ANSWER,
    ),
    (
        SPACED,
        b"GET http://h/a%20b HTTP/1.1\r\nHost: a\r\n\r\n",
        HI_ANSWER,
    ),
    (SPACED, b"GET a HTTP/1.1\r\nHost: a\r\n\r\n", BAD),
    (
        HI,
        b"GET /hi HTTP/1.1\r\nHost: a\r\nTransfer-Encoding: gzip, chunked\r\n\r\n",
        NOT_BUILT,
    ),
    (
        HI,
        b"GET /hi HTTP/1.1\r\nHost: a\r\nContent-Length: 3\r\nTransfer-Encoding: chunked\r\n\r\nGET /hi HTTP/1.1\r\nHost: a\r\n\r\n",
        BAD,
    ),
    (
        HI,
        b"GET /hi HTTP/1.1\r\nHost: a\r\nContent-Length: 0\r\n\r\n",
        NOT_BUILT,
    ),
    (
        HI,
        b"GET /hi HTTP/1.0\r\nHost: a\r\n\r\nGET /hi HTTP/1.1\r\nHost: a\r\n\r\n",
        NOT_BUILT,
    ),
    (
        TWO,
        b"GET /a HTTP/1.1\r\nHost: a\r\n\r\n",
        b"HTTP/1.1 410 Gone\r\ncontent-length: 0\r\ndate: Thu, 01 Jan 1970 00:00:00 GMT\r\n\r\n",
    ),
    (
        b"",
        b"POST / HTTP/1.1\r\nHost: a\r\n\r\n",
        b"HTTP/1.1 405 Method Not Allowed\r\nallow: GET, HEAD\r\ncontent-length: 0\r\ndate: Thu, 01 Jan 1970 00:00:00 GMT\r\n\r\n",
    ),
];

#[test]
fn requests_are_answered(rt: HostRuntime) -> Result<(), Fail> {
    let alloc = rt.alloc();
    for (i, (text, input, want)) in ANSWERED.iter().enumerate() {
        let (status, written) = answered(alloc, &plain(text, input), &ASK)?;
        assert_eq!(rt; status, Status::Done, "row {i}");
        assert!(rt; written.as_slice() == *want, "row {i}");
    }
    Ok(())
}

#[test]
fn pipelined_requests_are_answered_in_order(rt: HostRuntime) -> Result<(), Fail> {
    let alloc = rt.alloc();
    let input =
        b"GET /hi HTTP/1.1\r\nHost: a\r\n\r\n\r\nGET /no HTTP/1.1\r\nHost: a\r\n\r\nGET / HTTP/1.1\r\n\r\nGET /hi HTTP/1.1\r\nHost: a\r\n\r\n";
    let (status, written) = answered(alloc, &plain(HI, input), &ASK)?;
    let mut want = HI_ANSWER.to_vec(alloc)?;
    want.extend_from_slice(NOT_FOUND)?;
    want.extend_from_slice(BAD)?;
    assert_eq!(rt; status, Status::Done);
    assert_eq!(rt; written.as_slice(), want.as_slice());
    Ok(())
}

#[test]
fn the_thousandth_answer_is_the_last(rt: HostRuntime) -> Result<(), Fail> {
    let alloc = rt.alloc();
    let mut input = Vec::new(alloc);
    for _request in 0..1001 {
        input.extend_from_slice(GET_HI)?;
    }
    let (status, written) = answered(alloc, &plain(HI, input.as_slice()), &ASK)?;
    assert_eq!(rt; status, Status::Done);
    let last =
        b"HTTP/1.1 204 No Content\r\nconnection: close\r\ndate: Thu, 01 Jan 1970 00:00:00 GMT\r\n\r\n";
    assert_eq!(rt; written.len(), 999 * HI_ANSWER.len() + last.len());
    assert!(rt; written.starts_with(HI_ANSWER));
    assert!(rt; written.ends_with(last));
    Ok(())
}

#[test]
fn each_cut_gives_the_same_bytes(rt: HostRuntime) -> Result<(), Fail> {
    let alloc = rt.alloc();
    for cut in 0..GET_HI.len() {
        let case = Case {
            cut,
            ..plain(HI, GET_HI)
        };
        let (status, written) = answered(alloc, &case, &ASK)?;
        assert_eq!(rt; status, Status::Done);
        assert_eq!(rt; written.as_slice(), HI_ANSWER);
    }
    Ok(())
}

#[test]
fn words_are_read(rt: HostRuntime) -> Result<(), Fail> {
    let alloc = rt.alloc();
    let rows: [(&[&str], Why); 13] = [
        (&[], Why::NoCommand),
        (&["drill", "0"], Why::NoCommand),
        (&["drill", "1001"], Why::BadWords),
        (&["serve", "d", "t"], Why::BadWords),
        (&["check"], Why::BadWords),
        (&["check", "t", "u"], Why::BadWords),
        (&["serve", "d", "t", "127.0.0.1:80"], Why::NoCommand),
        (&["ask", "d"], Why::BadWords),
        (&["ask", "d", "t", "--moment"], Why::BadWords),
        (&["ask", "d", "t", "--moment", ""], Why::BadWords),
        (&["ask", "d", "t", "--moment", "-1"], Why::BadWords),
        (
            &["ask", "d", "t", "--moment", "253402300800"],
            Why::BadWords,
        ),
        (
            &["ask", "d", "--moment=1", "t", "--moment=1"],
            Why::BadWords,
        ),
    ];
    for (words, why) in rows {
        let (status, written) = answered(alloc, &plain(HI, GET_HI), words)?;
        assert_eq!(rt; status, Status::Words(why));
        assert_eq!(rt; written.as_slice(), USAGE);
    }
    let last = ["ask", "--moment=253402300799", "d", "t"];
    let (status, written) = answered(alloc, &plain(HI, GET_HI), &last)?;
    assert_eq!(rt; status, Status::Done);
    assert_eq!(rt;
        written.as_slice(),
        b"HTTP/1.1 204 No Content\r\ndate: Fri, 31 Dec 9999 23:59:59 GMT\r\n\r\n".as_slice()
    );
    let (status, written) = answered(alloc, &plain(HI, GET_HI), &["ask", "d", "t"])?;
    assert_eq!(rt; status, Status::Done);
    assert_eq!(rt;
        written.as_slice(),
        b"HTTP/1.1 204 No Content\r\ndate: Thu, 01 Jan 1970 00:00:07 GMT\r\n\r\n".as_slice()
    );
    Ok(())
}

#[test]
fn faults_have_their_statuses(rt: HostRuntime) -> Result<(), Fail> {
    let alloc = rt.alloc();
    let good = plain(HI, GET_HI);
    let rows: [(Case, Status, &[u8]); 6] = [
        (
            Case {
                failing_texts: &[0],
                ..good
            },
            Status::HostFault,
            b"",
        ),
        (
            Case {
                failing_text_reads: &[0],
                ..good
            },
            Status::HostFault,
            b"",
        ),
        (
            Case {
                failing_text_reads: &[1],
                ..good
            },
            Status::HostFault,
            b"",
        ),
        (
            Case {
                failing_reads: &[0],
                ..good
            },
            Status::StreamFault,
            b"",
        ),
        (
            Case {
                failing_reads: &[1],
                ..good
            },
            Status::StreamFault,
            HI_ANSWER,
        ),
        (
            Case {
                failing_writes: &[0],
                ..good
            },
            Status::StreamFault,
            b"",
        ),
    ];
    for (case, want, bytes) in rows {
        let (status, written) = answered(alloc, &case, &ASK)?;
        assert_eq!(rt; status, want);
        assert_eq!(rt; written.as_slice(), bytes);
    }
    let (status, written) = answered(alloc, &good, &["ask", "d", "other"])?;
    assert_eq!(rt; status, Status::HostFault);
    assert_eq!(rt; written.as_slice(), b"".as_slice());
    let silent = Case {
        failing_writes: &[0],
        ..plain(b"else", b"")
    };
    for words in [&ASK[..], &CHECK[..]] {
        let (status, written) = answered(alloc, &silent, words)?;
        assert_eq!(rt; status, Status::Text);
        assert_eq!(rt; written.as_slice(), b"".as_slice());
    }
    let checks: [(Case, Status); 3] = [
        (
            Case {
                failing_texts: &[0],
                ..good
            },
            Status::HostFault,
        ),
        (
            Case {
                failing_text_reads: &[1],
                ..good
            },
            Status::HostFault,
        ),
        (
            Case {
                failing_writes: &[0],
                ..good
            },
            Status::StreamFault,
        ),
    ];
    for (case, want) in checks {
        let (status, written) = answered(alloc, &case, &CHECK)?;
        assert_eq!(rt; status, want);
        assert_eq!(rt; written.as_slice(), b"".as_slice());
    }
    Ok(())
}
