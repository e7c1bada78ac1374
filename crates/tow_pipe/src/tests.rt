ghost use Rattle.std.specs.Prelude.{◌≡◌, ◌+◌, ◌-◌, ◌++◌, length, take, drop, min};
ghost use Rattle.circular_buffer.specs.Buffer.{buffer};

use crate::Pipe;
use std::process::Abort;
use std::test::Fail;

// What the pipe holds, beside its two counts.
fn expect(rt: &impl Abort, pipe: &mut Pipe, wanted: &[u8], room: usize)
    ensures { pipe.new ≡ pipe.old }
{
    assert_eq!(rt; pipe.len(), wanted.len());
    assert_eq!(rt; pipe.room(), room);
    let shown: &[u8] = pipe.view();
    assert_eq!(rt; shown, wanted);
}

// Hands on the first bytes, as many as `out` takes, and keeps the others.
fn forward(pipe: &mut Pipe, out: &mut Pipe) -> usize
    ensures count { result ≡ min (length pipe.old.items) (out.old.capacity - length out.old.items) }
    ensures left { pipe.new ≡ buffer (drop result pipe.old.items) pipe.old.capacity }
    ensures sent { out.new ≡ buffer (out.old.items ++ take result pipe.old.items) out.old.capacity }
{
    let sent = out.put(pipe.view());
    pipe.take(sent);
    sent
}

#[test]
fn bytes_come_out_in_their_order(rt: HostRuntime) -> Result<(), Fail> {
    let mut pipe = Pipe::new(rt.alloc(), 8)?;
    expect(&rt, &mut pipe, b"", 8);
    assert_eq!(rt; pipe.put(b"abcdef"), 6);
    expect(&rt, &mut pipe, b"abcdef", 2);
    pipe.take(4);
    expect(&rt, &mut pipe, b"ef", 6);
    // These wrap round the end of the block.
    assert_eq!(rt; pipe.put(b"ghijk"), 5);
    expect(&rt, &mut pipe, b"efghijk", 1);
    assert_eq!(rt; pipe.put(b"lmn"), 1);
    expect(&rt, &mut pipe, b"efghijkl", 0);
    assert_eq!(rt; pipe.put(b"x"), 0);
    pipe.take(8);
    expect(&rt, &mut pipe, b"", 8);
    Ok(())
}

#[test]
fn a_pipe_without_room(rt: HostRuntime) -> Result<(), Fail> {
    let mut pipe = Pipe::new(rt.alloc(), 0)?;
    assert_eq!(rt; pipe.put(b"a"), 0);
    expect(&rt, &mut pipe, b"", 0);
    pipe.take(0);
    Ok(())
}

#[test]
fn the_longest_pipe_of_a_connection(rt: HostRuntime) -> Result<(), Fail> {
    let mut pipe = Pipe::new(rt.alloc(), 65_536)?;
    let mut out = Pipe::new(rt.alloc(), 40_000)?;
    let bytes = vec![in rt.alloc(); 7u8; 70_000]?;
    assert_eq!(rt; pipe.put(bytes.as_slice()), 65_536);
    assert_eq!(rt; forward(&mut pipe, &mut out), 40_000);
    assert_eq!(rt; pipe.len(), 25_536);
    assert_eq!(rt; forward(&mut pipe, &mut out), 0);
    assert_eq!(rt; out.room(), 0);
    Ok(())
}

fn sendable<T: Send + Drop>(_value: T) {}

#[test]
fn a_pipe_moves_to_another_thread(rt: HostRuntime) -> Result<(), Fail> {
    sendable(Pipe::new(rt.alloc(), 1)?);
    Ok(())
}
