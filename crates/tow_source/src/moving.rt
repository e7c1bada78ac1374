ghost use Rattle.tow_source.specs.Moves.{Moves};

use tow_pipe::Pipe;

/// Moves the first bytes of the pipe to the front of the slice: at most `most`, and as many as there are and fit.
/// Answers how many. Takes no memory.
pub fn move_bytes(from: &mut Pipe, to: &mut [u8], most: u64) -> usize
    ensures { Moves result most from.old from.new to.old to.new }
{
    let there = from.len().min(to.len());
    let count = if most < there as u64 {
        most as usize
    } else {
        there
    };
    let bytes: &[u8] = from.view();
    to[..count].copy_from_slice(&bytes[..count]);
    from.take(count);
    count
}
