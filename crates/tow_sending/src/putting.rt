//! Bytes that are put into a pipe whole or not at all.

ghost use Rattle.std.specs.Prelude.{◌≡◌, ◌≤◌, ◌<◌, length};
ghost use Rattle.tow_model.specs.declared.limits.TheConstants.{BLOCK_LEN};
ghost use Rattle.tow_wire.specs.Answers.{chunk_text};
ghost use Rattle.tow_sending.specs.Pieces.{PutsText};

use crate::size_line::SizeLine;
use tow_pipe::Pipe;

/// Puts the bytes if the pipe has room for all of them. Takes no memory.
pub(crate) fn put_whole(pipe: &mut Pipe, bytes: &[u8]) -> bool
    ensures { PutsText bytes.now result pipe.old pipe.new }
{
    if pipe.room() < bytes.len() {
        return false;
    }
    pipe.put(bytes);
    true
}

/// Puts the block as a chunk, with its size line and its line ends, if the pipe has room for all of it. The block is not
/// copied but into the pipe, and no memory is taken.
pub(crate) fn put_chunk(pipe: &mut Pipe, block: &[u8]) -> bool
    requires { length block.now ≤ BLOCK_LEN }
    ensures { PutsText (chunk_text block.now) result pipe.old pipe.new }
{
    let line = SizeLine::new(block.len());
    let size = line.as_slice();
    if pipe.room() < size.len() + block.len() + 2 {
        return false;
    }
    pipe.put(size);
    pipe.put(block);
    pipe.put(b"\r\n");
    true
}
