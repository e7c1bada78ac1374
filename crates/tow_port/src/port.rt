//! A link with its two pipes.

ghost use Rattle.std.specs.Prelude.{◌≡◌, ◌≢◌, ◌≤◌, ◌<◌, ◌++◌, true, false, length, IfErr, IfOk};
ghost use Rattle.circular_buffer.specs.Buffer.{buffer};
ghost use Rattle.tow_link.specs.Data.{Rose};
ghost use Rattle.tow_model.specs.declared.limits.TheConstants.{PIPE_LEN};
ghost use Rattle.tow_peer.specs.Links.{NeverFall};
ghost use Rattle.tow_port.specs.Ports.{Fills, Sends, empty_pipe, room_of};

use std::alloc::Global;
use tow_model::NoMemory;
use tow_model::limits::PIPE_LEN;
use tow_peer::{Link, LinkRead, LinkWrite};
use tow_pipe::Pipe;

/// How many bytes are read at a time, at most.
const READ_LEN: usize = 16_384;

/// A link, what came over it and is not taken yet, and what is to be written to it.
#[derive(Drop)]
pub struct Port<L> {
    pub link: L,
    pub input: Pipe,
    /// The peer sends nothing more.
    pub ended: bool,
    pub output: Pipe,
    pub ghost input_len: { input.capacity ≡ PIPE_LEN },
    pub ghost output_len: { output.capacity ≡ PIPE_LEN },
}

/// Both pipes. Takes memory for twice 65,536 bytes.
fn pipes(alloc: Global) -> Result<(Pipe, Pipe), NoMemory>
    ensures { IfOk result (λ both. (both.0 ≡ empty_pipe) × (both.1 ≡ empty_pipe)) }
{
    let input = Pipe::new(alloc, PIPE_LEN)?;
    let output = Pipe::new(alloc, PIPE_LEN)?;
    Ok((input, output))
}

impl<L: Link> Port<L> {
    /// The link with two empty pipes. Takes memory for twice 65,536 bytes; if it is short, the link is handed back untouched.
    pub fn new(alloc: Global, link: L) -> Result<Port<L>, L>
        ensures link { IfOk result (λ port. port.link ≡ link) }
        ensures input { IfOk result (λ port. port.input ≡ empty_pipe) }
        ensures output { IfOk result (λ port. port.output ≡ empty_pipe) }
        ensures open { IfOk result (λ port. port.ended ≡ false) }
        ensures back { IfErr result (λ back. back ≡ link) }
    {
        let Ok((input, output)) = pipes(alloc) else {
            return Err(link);
        };
        Ok(Port {
            link,
            input,
            ended: false,
            output,
        })
    }

    /// Reads some bytes of the link behind those that are there, for which there is room, or notes that no more come. Takes no
    /// memory.
    pub fn fill(&mut self) -> LinkRead
        requires { 0 < room_of self.old.input }
        ensures fills { Fills result (L.shows self.old.link) (L.shows self.new.link) self.old.input
            self.new.input self.old.ended self.new.ended }
        ensures output { self.new.output ≡ self.old.output }
        ensures stalled { result ≡ LinkRead.NotYet → Rose (L.shows self.old.link).read_stalls
            (L.shows self.new.link).read_stalls }
        ensures failed { result ≡ LinkRead.Failed
            → Rose (L.shows self.old.link).faults (L.shows self.new.link).faults }
        ensures later { NeverFall (L.shows self.old.link) (L.shows self.new.link) }
    {
        let mut bytes = [0u8; READ_LEN];
        let room = self.input.room().min(READ_LEN);
        let answer = self.link.read(&mut bytes[..room]);
        match answer {
            LinkRead::Got(count) => {
                self.input.put(&bytes[..count]);
            }
            LinkRead::End => self.ended = true,
            LinkRead::NotYet | LinkRead::Failed => {}
        }
        answer
    }

    /// Writes some of the bytes that are to be written, of which there are some. Takes no memory.
    pub fn write(&mut self) -> LinkWrite
        requires { 0 < length self.old.output.items }
        ensures sends { Sends result (L.shows self.old.link) (L.shows self.new.link)
            self.old.output self.new.output }
        ensures input { self.new.input ≡ self.old.input }
        ensures ended { self.new.ended ≡ self.old.ended }
        ensures stalled { result ≡ LinkWrite.NotYet → Rose (L.shows self.old.link).write_stalls
            (L.shows self.new.link).write_stalls }
        ensures failed { result ≡ LinkWrite.Failed
            → Rose (L.shows self.old.link).faults (L.shows self.new.link).faults }
        ensures later { NeverFall (L.shows self.old.link) (L.shows self.new.link) }
    {
        let bytes: &[u8] = self.output.view();
        let answer = self.link.write(bytes);
        if let LinkWrite::Took(count) = answer {
            self.output.take(count);
        }
        answer
    }

    /// Puts all of the bytes behind those that are to be written, if there is room for them, and else none. Takes no memory.
    pub fn put(&mut self, bytes: &[u8]) -> bool
        ensures put { result ≡ true
            → self.new.output ≡ buffer (self.old.output.items ++ bytes.now) PIPE_LEN }
        ensures fits { result ≡ true → length bytes.now ≤ room_of self.old.output }
        ensures full { result ≡ false → room_of self.old.output < length bytes.now }
        ensures none { result ≡ false → self.new.output ≡ self.old.output }
        ensures link { self.new.link ≡ self.old.link }
        ensures input { self.new.input ≡ self.old.input }
        ensures ended { self.new.ended ≡ self.old.ended }
    {
        if self.output.room() < bytes.len() {
            return false;
        }
        self.output.put(bytes);
        true
    }
}
