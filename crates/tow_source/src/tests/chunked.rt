use super::reading::{read_cut, read_in_pieces};
use crate::{Body, BodySource, ChunkedSource, Drain, Drained};
use std::alloc::{AllocError, Global};
use std::test::Fail;
use tow_model::NoMemory;
use tow_pipe::Pipe;

// The text that comes, the bytes that are given, the answer in the end, and how many bytes are left
// in the pipe.
const ROWS: [(&[u8], &[u8], Body, usize); 66] = [
    // whole contents
    (b"0\r\n\r\n", b"", Body::End, 0),
    (b"3\r\nabc\r\n0\r\n\r\n", b"abc", Body::End, 0),
    (b"3\r\nabc\r\n0\r\n\r\nGET /", b"abc", Body::End, 5),
    (b"3\r\nabc\r\n2\r\nde\r\n0\r\n\r\n", b"abcde", Body::End, 0),
    (b"A\r\n0123456789\r\n0\r\n\r\n", b"0123456789", Body::End, 0),
    (b"a\r\n0123456789\r\n0\r\n\r\n", b"0123456789", Body::End, 0),
    (b"4\r\n\r\n\r\n\r\n0\r\n\r\n", b"\r\n\r\n", Body::End, 0),
    (
        b"1\r\n\x00\r\n1\r\n\xff\r\n00\r\n\r\n",
        b"\x00\xff",
        Body::End,
        0,
    ),
    // leading zeros, at most fifteen digits
    (b"000000000000003\r\nabc\r\n0\r\n\r\n", b"abc", Body::End, 0),
    (b"0000000000000003\r\nabc\r\n0\r\n\r\n", b"", Body::Bad, 12),
    (b"000000000000000\r\n\r\n", b"", Body::End, 0),
    (b"0000000000000000\r\n\r\n", b"", Body::Bad, 4),
    // blanks and extensions
    (b"3;a=b\r\nabc\r\n0\r\n\r\n", b"abc", Body::End, 0),
    (b"3;a=\"q;r\";s\r\nabc\r\n0;x\r\n\r\n", b"abc", Body::End, 0),
    (b"3 ;a\r\nabc\r\n0\r\n\r\n", b"abc", Body::End, 0),
    (b"3\t \r\nabc\r\n0 \r\n\r\n", b"abc", Body::End, 0),
    (b"3;\r\nabc\r\n0;\r\n\r\n", b"abc", Body::End, 0),
    (b"3;\x00\xff\t\r\nabc\r\n0\r\n\r\n", b"abc", Body::End, 0),
    (b"3 a\r\nabc", b"", Body::Bad, 5),
    (b"3 3\r\nabc", b"", Body::Bad, 5),
    (b"3;a\nabc", b"", Body::Bad, 3),
    (b"3;a\ra\r\n", b"", Body::Bad, 2),
    (b"3;a=\"\r\n\"", b"\"", Body::NotYet, 0),
    // line ends
    (b"3\nabc\n0\n\n", b"", Body::Bad, 7),
    (b"3\rabc", b"", Body::Bad, 2),
    (b"3\r\rabc", b"", Body::Bad, 3),
    (b"\r\n3\r\n", b"", Body::Bad, 4),
    (b"\n", b"", Body::Bad, 0),
    // no sizes
    (b"-3\r\nabc", b"", Body::Bad, 6),
    (b"+3\r\nabc", b"", Body::Bad, 6),
    (b"0x3\r\nabc", b"", Body::Bad, 6),
    (b" 3\r\nabc", b"", Body::Bad, 6),
    (b"3h\r\nabc", b"", Body::Bad, 5),
    (b"g\r\n", b"", Body::Bad, 2),
    (b"G\r\n", b"", Body::Bad, 2),
    (b";a\r\n", b"", Body::Bad, 3),
    // what follows the data
    (b"3\r\nabcd\r\n", b"abc", Body::Bad, 2),
    (b"3\r\nabc\n", b"abc", Body::Bad, 0),
    (b"3\r\nabc\rx", b"abc", Body::Bad, 0),
    (b"3\r\nabc\r\r\n", b"abc", Body::Bad, 1),
    (b"3\r\nabc\r\n\r\n", b"abc", Body::Bad, 1),
    // trailers
    (b"0\r\na: b\r\n\r\n", b"", Body::End, 0),
    (b"0\r\na\r\nb: c\r\n\r\nx", b"", Body::End, 1),
    (b"0\r\n \r\n\r\n", b"", Body::End, 0),
    (b"0\r\na: b\n\r\n", b"", Body::Bad, 2),
    (b"0\r\na\rb\r\n\r\n", b"", Body::Bad, 4),
    (b"0\r\n\rx", b"", Body::Bad, 0),
    (b"0\r\n\n", b"", Body::Bad, 0),
    (b"0\r\na\r\n\n", b"", Body::Bad, 0),
    // fronts of contents
    (b"", b"", Body::NotYet, 0),
    (b"3", b"", Body::NotYet, 0),
    (b"3 ", b"", Body::NotYet, 0),
    (b"3;a", b"", Body::NotYet, 0),
    (b"3\r\n", b"", Body::NotYet, 0),
    (b"3\r\nab", b"ab", Body::NotYet, 0),
    (b"3\r\nabc\r\n", b"abc", Body::NotYet, 0),
    (b"0\r\n\r", b"", Body::NotYet, 0),
    (b"0\r\na: b\r\n", b"", Body::NotYet, 0),
    // sizes above the limit, seen at the end of their line
    (b"100000\r\nab", b"ab", Body::NotYet, 0),
    (b"100001\r\nab", b"", Body::TooLong, 2),
    (b"100001\r", b"", Body::NotYet, 0),
    (b"100001\rx", b"", Body::Bad, 0),
    (b"100001;a\r\nab", b"", Body::TooLong, 2),
    (b"fffffffffffffff\r\na", b"", Body::TooLong, 1),
    (b"800000000000000\r\na", b"", Body::TooLong, 1),
    (b"1\r\na\r\n100000\r\nb", b"a", Body::TooLong, 1),
];

// What the reads of a text gave: the bytes, the answer, the answer of one read more, and how many
// bytes are left in the pipe.
#[derive(Drop)]
struct Seen {
    given: Vec<u8>,
    answer: Body,
    again: Body,
    left: usize,
}

fn read_row(alloc: Global, text: &[u8], cut: usize, to: &mut [u8]) -> Result<Seen, NoMemory> {
    let mut pipe = Pipe::new(alloc, 64)?;
    let mut given = Vec::new(alloc);
    let mut source = ChunkedSource::new();
    let answer = read_cut(&mut source, &mut pipe, text, cut, to, &mut given)?;
    let again = read_cut(&mut source, &mut pipe, b"", 0, to, &mut given)?;
    let left = pipe.len();
    Ok(Seen {
        given,
        answer,
        again,
        left,
    })
}

#[test]
fn rows_cut_at_every_byte(rt: HostRuntime) -> Result<(), Fail> {
    let mut one = [0u8; 1];
    let mut seven = [0u8; 7];
    let mut long = vec![in rt.alloc(); 0u8; 65_536]?;
    for (text, content, wanted, left) in &ROWS {
        for cut in 0..text.len() + 1 {
            for seen in [
                read_row(rt.alloc(), text, cut, &mut one)?,
                read_row(rt.alloc(), text, cut, &mut seven)?,
                read_row(rt.alloc(), text, cut, long.as_mut_slice())?,
            ] {
                assert_eq!(rt; seen.given.as_slice(), *content);
                assert_eq!(rt; seen.answer, *wanted);
                assert_eq!(rt; seen.again, *wanted);
                assert_eq!(rt; seen.left, *left);
            }
        }
    }
    Ok(())
}

#[test]
fn rows_byte_by_byte(rt: HostRuntime) -> Result<(), Fail> {
    let mut to = [0u8; 7];
    for (text, content, wanted, left) in &ROWS {
        let mut pipe = Pipe::new(rt.alloc(), 64)?;
        let mut given = Vec::new(rt.alloc());
        let mut source = ChunkedSource::new();
        let answer = read_in_pieces(&mut source, &mut pipe, text, 1, &mut to, &mut given)?;
        assert_eq!(rt; answer, *wanted);
        assert_eq!(rt; given.as_slice(), *content);
        assert_eq!(rt; pipe.len(), *left);
    }
    Ok(())
}

// How many bytes an extension or a trailer line has, the answer in the end, and how many bytes are
// left in the pipe.
const SIZE_LINES: [(usize, Body, usize); 3] = [
    (252, Body::NotYet, 0),
    (253, Body::Bad, 2),
    (300, Body::Bad, 49),
];

const TRAILERS: [(usize, Body, usize); 3] = [
    (8_188, Body::End, 0),
    (8_189, Body::Bad, 4),
    (9_000, Body::Bad, 815),
];

// The front, so many bytes, and the rest.
fn long_text(alloc: Global, front: &[u8], len: usize, rest: &[u8]) -> Result<Vec<u8>, AllocError> {
    let mut text = front.to_vec(alloc)?;
    text.extend_from_slice(vec![in alloc; b'a'; len]?.as_slice())?;
    text.extend_from_slice(rest)?;
    Ok(text)
}

#[test]
fn the_longest_lines(rt: HostRuntime) -> Result<(), Fail> {
    let mut to = [0u8; 7];
    for (len, wanted, left) in &SIZE_LINES {
        let text = long_text(rt.alloc(), b"3;", *len, b"\r\n")?;
        let mut pipe = Pipe::new(rt.alloc(), 65_536)?;
        pipe.put(text.as_slice());
        let mut source = ChunkedSource::new();
        assert_eq!(rt; source.read(&mut pipe, &mut to), *wanted);
        assert_eq!(rt; pipe.len(), *left);
    }
    for (len, wanted, left) in &TRAILERS {
        let text = long_text(rt.alloc(), b"0\r\n", *len, b"\r\n\r\n")?;
        let mut pipe = Pipe::new(rt.alloc(), 65_536)?;
        pipe.put(text.as_slice());
        let mut source = ChunkedSource::new();
        assert_eq!(rt; source.read(&mut pipe, &mut to), *wanted);
        assert_eq!(rt; pipe.len(), *left);
    }
    Ok(())
}

// What follows sixteen chunks of 65,536 bytes, and the answer in the end.
const LONGEST: [(&[u8], Body); 3] = [
    (b"0\r\n\r\n", Body::End),
    (b"1\r\n", Body::TooLong),
    (b"1", Body::NotYet),
];

// Sixteen chunks, and the rest.
fn sixteen_chunks(alloc: Global, rest: &[u8]) -> Result<Vec<u8>, AllocError> {
    let data = vec![in alloc; 7u8; 65_536]?;
    let mut text = Vec::new(alloc);
    for _ in 0..16 {
        text.extend_from_slice(b"10000\r\n")?;
        text.extend_from_slice(data.as_slice())?;
        text.extend_from_slice(b"\r\n")?;
    }
    text.extend_from_slice(rest)?;
    Ok(text)
}

#[test]
fn the_longest_content(rt: HostRuntime) -> Result<(), Fail> {
    let mut to = vec![in rt.alloc(); 0u8; 65_536]?;
    for (rest, wanted) in &LONGEST {
        let text = sixteen_chunks(rt.alloc(), rest)?;
        let mut pipe = Pipe::new(rt.alloc(), 65_536)?;
        let mut given = Vec::new(rt.alloc());
        let mut source = ChunkedSource::new();
        let answer = read_in_pieces(
            &mut source,
            &mut pipe,
            text.as_slice(),
            65_536,
            to.as_mut_slice(),
            &mut given,
        )?;
        assert_eq!(rt; answer, *wanted);
        assert_eq!(rt; given.len(), 1_048_576);
        assert_eq!(rt; pipe.len(), 0);
    }
    Ok(())
}

#[test]
fn chunks_are_dropped(rt: HostRuntime) -> Result<(), Fail> {
    let mut pipe = Pipe::new(rt.alloc(), 64)?;
    let mut drain = Drain::new(ChunkedSource::new());
    pipe.put(b"3\r\nabc\r\n2\r\nd");
    assert_eq!(rt; drain.run(&mut pipe), Drained::NotYet);
    assert_eq!(rt; pipe.len(), 0);
    pipe.put(b"e\r\n0\r\na: b\r\n\r\nGET");
    assert_eq!(rt; drain.run(&mut pipe), Drained::Whole);
    assert_eq!(rt; pipe.len(), 3);
    assert_eq!(rt; drain.run(&mut pipe), Drained::Whole);
    assert_eq!(rt; pipe.len(), 3);
    Ok(())
}
