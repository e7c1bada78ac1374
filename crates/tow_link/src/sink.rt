ghost use Rattle.std.specs.Prelude.{◌≡◌, ℕ, ◌<◌, ◌≤◌, length};
ghost use Rattle.tow_link.specs.Data.{SinkData, Rose};
ghost use Rattle.tow_link.specs.Calls.{WriteFits, WriteAppends};

/// What a write did.
#[derive(Clone, Copy, Debug, PartialEq, Eq)]
pub enum Write {
    /// So many bytes, at least 1, from the front of those that were offered.
    Took(usize),
    /// The sink took nothing, and counted the fault.
    Failed,
}

/// A place to which bytes are appended. Writing takes no memory of the caller's.
pub trait Sink {
    /// How often it has failed and, where it tells, what was written.
    ghost shows: { Self → SinkData };

    /// Appends some of the first bytes offered, of which there is at least one.
    fn write(&mut self, from: &[u8]) -> Write
        requires { 0 < length from.now }
        ensures fits { WriteFits result (length from.now) }
        ensures bytes { WriteAppends (shows self.old).written (shows self.new).written result
            from.now }
        ensures later { (shows self.old).faults ≤ (shows self.new).faults }
        ensures failed { result ≡ Write.Failed
            → Rose (shows self.old).faults (shows self.new).faults };
}
