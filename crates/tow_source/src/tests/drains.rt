use crate::{Drain, Drained, FixedSource};
use std::test::Fail;
use tow_pipe::Pipe;

#[test]
fn a_content_is_dropped_in_two_pieces(rt: HostRuntime) -> Result<(), Fail> {
    let mut pipe = Pipe::new(rt.alloc(), 8_192)?;
    let bytes = vec![in rt.alloc(); 7u8; 8_000]?;
    let mut drain = Drain::new(FixedSource::new(10_000));
    pipe.put(bytes.as_slice());
    assert_eq!(rt; drain.run(&mut pipe), Drained::NotYet);
    assert_eq!(rt; pipe.len(), 0);
    pipe.put(bytes.as_slice());
    assert_eq!(rt; drain.run(&mut pipe), Drained::Whole);
    assert_eq!(rt; pipe.len(), 6_000);
    assert_eq!(rt; drain.run(&mut pipe), Drained::Whole);
    assert_eq!(rt; pipe.len(), 6_000);
    Ok(())
}

#[test]
fn a_length_above_the_limit_is_too_long_at_once(rt: HostRuntime) -> Result<(), Fail> {
    let mut pipe = Pipe::new(rt.alloc(), 16)?;
    pipe.put(b"abc");
    let mut drain = Drain::new(FixedSource::new(1_048_577));
    assert_eq!(rt; drain.run(&mut pipe), Drained::TooLong);
    assert_eq!(rt; drain.run(&mut pipe), Drained::TooLong);
    assert_eq!(rt; pipe.len(), 3);
    Ok(())
}
