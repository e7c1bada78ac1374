ghost use Rattle.std.specs.Prelude.{◌<◌, length};
ghost use Rattle.tow_source.specs.Readings.{KeepsPace, Onward, Reads};

use crate::Body;
use tow_pipe::Pipe;

/// Gives the content of a request as its bytes come.
pub trait BodySource {
    ghost use Rattle.tow_source.specs.Readings.{Reading};

    /// The readings that a source may have made so far: the text it took, and the bytes it gave.
    ghost reads: { Self → Reading → Type 0 };

    /// Takes bytes from the front of `from`, and puts the next bytes of the content at the front of `to`. Takes no
    /// memory. After an end the same answer comes again.
    fn read(&mut self, from: &mut Pipe, to: &mut [u8]) -> Body
        requires { 0 < length to.old }
        ensures law { Onward (reads self.old) (reads self.new)
            (Reads result from.old from.new to.new) }
        ensures pace { KeepsPace result from.old from.new to.new };
}
