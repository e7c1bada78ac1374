//! A source and a sink side by side as a link.

ghost use Rattle.tow_peer.specs.Memory.{joined_link, local_peer};

use crate::answers::{LinkRead, LinkWrite};
use crate::link::Link;
use tow_link::{Joined, Read, Sink, Source, Write};

/// The address of this machine to itself, 127.0.0.1.
const LOCAL_PEER: u32 = 0x7f00_0001;

impl<I: Source, O: Sink> Link for Joined<I, O> {
    ghost shows = { λ link. joined_link (I.shows link.input) (O.shows link.output) };

    fn read(&mut self, to: &mut [u8]) -> LinkRead {
        match self.input.read(to) {
            Read::Got(count) => LinkRead::Got(count),
            Read::End => LinkRead::End,
            Read::Failed => LinkRead::Failed,
        }
    }

    fn write(&mut self, from: &[u8]) -> LinkWrite {
        match self.output.write(from) {
            Write::Took(count) => LinkWrite::Took(count),
            Write::Failed => LinkWrite::Failed,
        }
    }

    fn peer(&self) -> u32 {
        LOCAL_PEER
    }
}
