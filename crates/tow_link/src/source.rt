ghost use Rattle.std.specs.Prelude.{◌≡◌, ℕ, ◌<◌, ◌≤◌, length};
ghost use Rattle.tow_link.specs.Data.{SourceData, Rose};
ghost use Rattle.tow_link.specs.Calls.{ReadFits, ReadMoves};

/// What a read gave.
#[derive(Clone, Copy, Debug, PartialEq, Eq)]
pub enum Read {
    /// So many bytes, at least 1, at the front of the buffer.
    Got(usize),
    /// The source is at its end.
    End,
    /// The source failed, and counted it.
    Failed,
}

/// Bytes that are read from front to back. Reading takes no memory.
pub trait Source {
    /// How often it has failed and, where it tells, what was read and what is left.
    ghost shows: { Self → SourceData };

    /// Reads some of the next bytes into the buffer, which is not empty.
    fn read(&mut self, to: &mut [u8]) -> Read
        requires { 0 < length to.old }
        ensures fits { ReadFits result (length to.new) }
        ensures bytes { ReadMoves (shows self.old).told (shows self.new).told result to.new }
        ensures later { (shows self.old).faults ≤ (shows self.new).faults }
        ensures failed { result ≡ Read.Failed
            → Rose (shows self.old).faults (shows self.new).faults };
}
