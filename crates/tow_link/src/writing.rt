ghost use Rattle.std.specs.Prelude.{◌≡◌, ◌≤◌, OnOk, OnErr};
ghost use Rattle.std.specs.Io.KnownBytes.{append_known};
ghost use Rattle.tow_link.specs.Data.{Rose};
ghost use Rattle.tow_link.specs.Runs.{AppendsPart};

use crate::{Sink, Write};

/// The sink failed, and counted it.
#[derive(Clone, Copy, Debug, PartialEq, Eq)]
pub struct Failed;

/// Writes all the bytes, or the front of them and then the sink fails; after that it is not called again.
pub fn write_all<K: Sink>(sink: &mut K, bytes: &[u8]) -> Result<(), Failed>
    ensures all { OnOk result ((K.shows sink.new).written
        ≡ append_known (K.shows sink.old).written bytes.now) }
    ensures part { AppendsPart (K.shows sink.old).written (K.shows sink.new).written bytes.now }
    ensures later { (K.shows sink.old).faults ≤ (K.shows sink.new).faults }
    ensures failed { OnErr result (Rose (K.shows sink.old).faults (K.shows sink.new).faults) }
{
    let mut at = 0;
    'writes: while at < bytes.len() {
        match sink.write(&bytes[at..]) {
            Write::Took(count) => at += count,
            Write::Failed => return Err(Failed),
        }
    }
    Ok(())
}
