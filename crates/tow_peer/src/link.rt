//! Links.

ghost use Rattle.std.specs.Prelude.{◌≡◌, ◌<◌, length, IfSome};
ghost use Rattle.tow_link.specs.Data.{Rose};
ghost use Rattle.tow_peer.specs.Links.{
  LinkData,
  NeverFall,
  ReadFits,
  ReadMoves,
  WriteAppends,
  WriteFits,
};

use crate::answers::{LinkRead, LinkWrite};

/// A link to a peer. Reading and writing take no memory of the caller's.
pub trait Link {
    /// Its counts and, where it tells, its peer, its bytes in and its bytes out.
    ghost shows: { Self → LinkData };

    /// Reads some of the next bytes into the buffer, which is not empty.
    fn read(&mut self, to: &mut [u8]) -> LinkRead
        requires { 0 < length to.old }
        ensures fits { ReadFits result (length to.new) }
        ensures bytes { ReadMoves (shows self.old) (shows self.new) result to.new }
        ensures stalled { result ≡ LinkRead.NotYet
            → Rose (shows self.old).read_stalls (shows self.new).read_stalls }
        ensures failed { result ≡ LinkRead.Failed
            → Rose (shows self.old).faults (shows self.new).faults }
        ensures later { NeverFall (shows self.old) (shows self.new) };

    /// Writes some of the first bytes, of which there is one at least.
    fn write(&mut self, from: &[u8]) -> LinkWrite
        requires { 0 < length from.now }
        ensures fits { WriteFits result (length from.now) }
        ensures bytes { WriteAppends (shows self.old) (shows self.new) result from.now }
        ensures stalled { result ≡ LinkWrite.NotYet
            → Rose (shows self.old).write_stalls (shows self.new).write_stalls }
        ensures failed { result ≡ LinkWrite.Failed
            → Rose (shows self.old).faults (shows self.new).faults }
        ensures later { NeverFall (shows self.old) (shows self.new) };

    /// The peer's IPv4 address as a number, its first part the highest. Takes no memory.
    fn peer(&self) -> u32
        ensures { IfSome (shows self.now).peer (λ peer. result ≡ peer) };
}
