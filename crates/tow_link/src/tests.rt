use super::*;
use std::alloc::{AllocError, Global};
use std::test::Fail;

// The pieces `ab`, nothing and `cde`, of which the second read fails.
fn pieces(alloc: Global) -> Result<MemorySource, AllocError> {
    let mut pieces = Vec::new(alloc);
    for piece in [b"ab".as_slice(), b"", b"cde"] {
        pieces.push(piece.to_vec(alloc)?)?;
    }
    MemorySource::of_pieces(alloc, pieces, [1].to_vec(alloc)?)
}

// What so many reads with a buffer of two bytes give.
fn reads(alloc: Global, source: &mut MemorySource, count: usize) -> Result<Vec<Read>, AllocError> {
    let mut answers = Vec::new(alloc);
    for _call in 0..count {
        answers.push(source.read(&mut [0; 2]))?;
    }
    Ok(answers)
}

// What a source of these bytes gives up to a limit, and what was then read of it.
fn whole(
    alloc: Global,
    mut source: MemorySource,
    most: usize,
) -> Result<(Whole, Vec<u8>), AllocError> {
    let whole = read_whole(alloc, &mut source, most);
    Ok((whole, source.taken().to_vec(alloc)?))
}

// What writing these texts one after the other answers, and what was then written.
fn writes(
    alloc: Global,
    texts: &[&[u8]],
) -> Result<(Vec<Result<(), Failed>>, Vec<u8>), AllocError> {
    let mut streams = Joined {
        input: pieces(alloc)?,
        output: MemorySink::new(alloc, [1].to_vec(alloc)?),
    };
    let mut answers = Vec::new(alloc);
    for text in texts {
        answers.push(write_all(&mut streams.output, text))?;
    }
    Ok((answers, streams.output.written().to_vec(alloc)?))
}

#[test]
fn a_read_stays_within_its_piece(rt: HostRuntime) -> Result<(), Fail> {
    let alloc = rt.alloc();
    let mut source = pieces(alloc)?;
    assert_eq!(rt;
        reads(alloc, &mut source, 2)?.as_slice(),
        [Read::Got(2), Read::Failed].as_slice()
    );
    assert_eq!(rt; source.left(), b"cde".as_slice());
    assert_eq!(rt;
        reads(alloc, &mut source, 3)?.as_slice(),
        [Read::Got(2), Read::Got(1), Read::End].as_slice()
    );
    assert_eq!(rt; source.taken(), b"abcde".as_slice());
    assert_eq!(rt; source.faults(), 1);
    Ok(())
}

#[test]
fn a_restarted_source_reads_and_fails_alike(rt: HostRuntime) -> Result<(), Fail> {
    let alloc = rt.alloc();
    let mut first = pieces(alloc)?;
    let before = reads(alloc, &mut first, 5)?;
    let mut again = first.restarted()?;
    assert_eq!(rt; reads(alloc, &mut again, 5)?, before);
    assert_eq!(rt; again.faults(), 1);
    Ok(())
}

#[test]
fn a_source_is_read_up_to_a_limit(rt: HostRuntime) -> Result<(), Fail> {
    let alloc = rt.alloc();
    let long = MemorySource::new(b"abcde".to_vec(alloc)?, [].to_vec(alloc)?);
    assert_eq!(rt;
        whole(alloc, long, 3)?,
        (
            Whole::TooLong(b"abcd".to_vec(alloc)?),
            b"abcd".to_vec(alloc)?
        )
    );
    let short = MemorySource::new(b"abc".to_vec(alloc)?, [].to_vec(alloc)?);
    assert_eq!(rt;
        whole(alloc, short, 3)?,
        (Whole::Bytes(b"abc".to_vec(alloc)?), b"abc".to_vec(alloc)?)
    );
    assert_eq!(rt;
        whole(alloc, pieces(alloc)?, 9)?,
        (Whole::Failed, b"ab".to_vec(alloc)?)
    );
    Ok(())
}

#[test]
fn a_failed_write_appends_nothing(rt: HostRuntime) -> Result<(), Fail> {
    let (answers, written) = writes(rt.alloc(), &[b"ab", b"", b"cd", b"ef"])?;
    assert_eq!(rt;
        answers.as_slice(),
        [Ok(()), Ok(()), Err(Failed), Ok(())].as_slice()
    );
    assert_eq!(rt; written.as_slice(), b"abef".as_slice());
    Ok(())
}

#[test]
fn a_sink_counts_its_faults(rt: HostRuntime) -> Result<(), Fail> {
    let alloc = rt.alloc();
    let mut sink = MemorySink::new(alloc, [0].to_vec(alloc)?);
    assert_eq!(rt; sink.write(b"a"), Write::Failed);
    assert_eq!(rt; sink.faults(), 1);
    Ok(())
}

// What a maker makes of these patterns one after the other.
fn makes<M: Maker>(
    alloc: Global,
    maker: &mut M,
    patterns: &[&[u8]],
) -> Result<Vec<&'static str>, AllocError> {
    let mut answers = Vec::new(alloc);
    for pattern in patterns {
        answers.push(match maker.make(alloc, pattern) {
            Made::Built(_) => "built",
            Made::Syntax => "syntax",
            Made::Large => "large",
            Made::NoMemory => "no memory",
        })?;
    }
    Ok(answers)
}

// A maker that refuses these patterns as too large.
fn memory_maker(alloc: Global, larges: &[&[u8]]) -> Result<MemoryMaker, AllocError> {
    let mut counts = KeyCounts::new(alloc);
    for pattern in larges {
        counts.begin(pattern.to_vec(alloc)?)?;
    }
    Ok(MemoryMaker::new(counts))
}

// A pattern whose program is larger than `regex` allows.
const TOO_BIG: &[u8] = b"(a{1000}){1000}";

#[test]
fn patterns_are_built_or_refused(rt: HostRuntime) -> Result<(), Fail> {
    let mut maker = PackMaker::new();
    assert_eq!(rt;
        makes(
            rt.alloc(),
            &mut maker,
            &[b"a(b|c)*", b"(", b"a\xff", TOO_BIG]
        )?
        .as_slice(),
        ["built", "syntax", "syntax", "large"].as_slice()
    );
    assert_eq!(rt; maker.larges(), 1);
    Ok(())
}

#[test]
fn listed_patterns_are_refused_as_large(rt: HostRuntime) -> Result<(), Fail> {
    let alloc = rt.alloc();
    let mut maker = memory_maker(alloc, &[b"a", b"("])?;
    assert_eq!(rt;
        makes(alloc, &mut maker, &[b"a", b"b", b")", b"(", b"a", TOO_BIG])?.as_slice(),
        ["large", "built", "syntax", "large", "large", "large"].as_slice()
    );
    assert_eq!(rt; maker.larges_of(b"a"), 2);
    assert_eq!(rt; maker.larges_of(b"("), 1);
    assert_eq!(rt; maker.larges_of(TOO_BIG), 1);
    Ok(())
}
