//! A port over a link in memory.

use crate::Port;
use std::alloc::Global;
use std::process::Abort;
use std::test::Fail;
use tow_model::limits::PIPE_LEN;
use tow_peer::{Calls, LinkRead, LinkWrite, MemoryLink};

const PEER: u32 = 1;

fn calls(alloc: Global, stalling: &[u64], failing: &[u64]) -> Result<Calls, Fail> {
    Ok(Calls {
        stalling: stalling.to_vec(alloc)?,
        failing: failing.to_vec(alloc)?,
    })
}

/// A port over a link to which these bytes come, whose second read and second write stall, and whose fourth ones fail.
fn port_of(alloc: Global, bytes: &[u8]) -> Result<Port<MemoryLink>, Fail> {
    let mut pieces = Vec::new(alloc);
    pieces.push(bytes.to_vec(alloc)?)?;
    let reads = calls(alloc, &[1], &[3])?;
    let writes = calls(alloc, &[1], &[3])?;
    let link = MemoryLink::new(alloc, PEER, pieces, reads, writes)?;
    match Port::new(alloc, link) {
        Ok(port) => Ok(port),
        Err(_link) => Err("no port".into()),
    }
}

/// A read of a port whose pipe of input has room.
fn filled(rt: &impl Abort, port: &mut Port<MemoryLink>) -> LinkRead {
    assert!(rt; port.input.room() > 0);
    port.fill()
}

#[test]
fn what_came_stands_in_the_pipe(rt: HostRuntime) -> Result<(), Fail> {
    let alloc = rt.alloc();
    let mut port = port_of(alloc, b"abc")?;
    assert_eq!(rt; filled(&rt, &mut port), LinkRead::Got(3));
    assert_eq!(rt; port.input.len(), 3);
    assert_eq!(rt; filled(&rt, &mut port), LinkRead::NotYet);
    assert!(rt; !port.ended);
    assert_eq!(rt; filled(&rt, &mut port), LinkRead::End);
    assert!(rt; port.ended);
    assert_eq!(rt; filled(&rt, &mut port), LinkRead::Failed);
    assert_eq!(rt; port.input.len(), 3);
    Ok(())
}

/// A write of a port whose pipe of output has some bytes.
fn written(rt: &impl Abort, port: &mut Port<MemoryLink>) -> LinkWrite {
    assert!(rt; port.output.len() > 0);
    port.write()
}

#[test]
fn what_was_put_is_written(rt: HostRuntime) -> Result<(), Fail> {
    let alloc = rt.alloc();
    let mut port = port_of(alloc, b"")?;
    assert!(rt; port.put(b"ab"));
    assert!(rt; port.put(b"c"));
    assert_eq!(rt; written(&rt, &mut port), LinkWrite::Took(3));
    assert_eq!(rt; port.output.len(), 0);
    assert!(rt; port.put(b"d"));
    assert_eq!(rt; written(&rt, &mut port), LinkWrite::NotYet);
    assert_eq!(rt; written(&rt, &mut port), LinkWrite::Took(1));
    assert!(rt; port.put(b"e"));
    assert_eq!(rt; written(&rt, &mut port), LinkWrite::Failed);
    assert_eq!(rt; port.output.len(), 1);
    assert_eq!(rt; port.link.written(), b"abcd".as_slice());
    Ok(())
}

#[test]
fn what_does_not_fit_is_not_put(rt: HostRuntime) -> Result<(), Fail> {
    let alloc = rt.alloc();
    let mut port = port_of(alloc, b"")?;
    let bytes = vec![in alloc; 7; PIPE_LEN]?;
    assert!(rt; port.put(&bytes[1..]));
    assert!(rt; !port.put(b"ab"));
    assert_eq!(rt; port.output.len(), PIPE_LEN - 1);
    assert!(rt; port.put(b"a"));
    assert_eq!(rt; port.output.len(), PIPE_LEN);
    Ok(())
}
