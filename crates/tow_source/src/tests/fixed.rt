use super::reading::read_in_pieces;
use crate::{Body, BodySource, FixedSource};
use std::test::Fail;
use tow_pipe::Pipe;

// The lengths, the text that comes, and the answer in the end.
const ROWS: [(u64, &[u8], Body); 8] = [
    (0, b"", Body::NotYet),
    (0, b"a", Body::End),
    (1, b"a", Body::End),
    (5, b"abcd", Body::NotYet),
    (5, b"abcde", Body::End),
    (5, b"abcdef", Body::End),
    (1_048_577, b"abc", Body::TooLong),
    (18_446_744_073_709_551_615, b"abc", Body::TooLong),
];

#[test]
fn rows_in_pieces(rt: HostRuntime) -> Result<(), Fail> {
    let mut to = [0u8; 7];
    for (len, text, wanted) in &ROWS {
        for piece in 1..8 {
            let mut pipe = Pipe::new(rt.alloc(), 64)?;
            let mut given = Vec::new(rt.alloc());
            let mut source = FixedSource::new(*len);
            let answer = read_in_pieces(
                &mut source,
                &mut pipe,
                text,
                piece,
                &mut to[..piece],
                &mut given,
            )?;
            assert_eq!(rt; answer, *wanted);
            if *wanted == Body::TooLong {
                assert!(rt; given.is_empty());
                assert_eq!(rt; pipe.len(), text.len());
            } else {
                let most = text.len().min(*len as usize);
                assert_eq!(rt; given.as_slice(), &text[..most]);
                assert_eq!(rt; pipe.len(), text.len() - most);
            }
        }
    }
    Ok(())
}

#[test]
fn the_longest_content(rt: HostRuntime) -> Result<(), Fail> {
    let bytes = vec![in rt.alloc(); 7u8; 1_048_577]?;
    let mut to = vec![in rt.alloc(); 0u8; 65_536]?;
    let mut pipe = Pipe::new(rt.alloc(), 65_536)?;
    let mut given = Vec::new(rt.alloc());
    let mut source = FixedSource::new(1_048_576);
    let answer = read_in_pieces(
        &mut source,
        &mut pipe,
        bytes.as_slice(),
        65_536,
        to.as_mut_slice(),
        &mut given,
    )?;
    assert_eq!(rt; answer, Body::End);
    assert_eq!(rt; given.len(), 1_048_576);
    assert_eq!(rt; pipe.len(), 1);
    assert_eq!(rt; source.read(&mut pipe, to.as_mut_slice()), Body::End);
    assert_eq!(rt; pipe.len(), 1);
    Ok(())
}
