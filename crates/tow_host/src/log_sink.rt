//! Logs, which take the lines of requests.

ghost use Rattle.std.specs.Prelude.{◌≡◌, ℕ, ◌≤◌};
ghost use Rattle.tow_link.specs.Data.{Rose};
ghost use Rattle.tow_faults.specs.Faults.{KeepsOtherFaults, faults_for};
ghost use Rattle.tow_host.specs.Logs.{LogData, PutAdds, line_told};

/// What became of a line.
#[derive(Clone, Copy, Debug, PartialEq, Eq)]
pub enum Put {
    /// It stands at the end of the log.
    Stored,
    /// It does not, and the log counted the fault for the line's connection.
    Failed,
}

/// A log, which holds the lines of several `access-log` handlers and connections in the order in
/// which they come. Putting takes no memory of the caller's.
pub trait LogSink {
    /// How often it has failed, by the connection, and, where it tells, its lines.
    ghost shows: { Self → LogData };

    /// Puts the line, without its line end, of the request `j`, from 1, of the connection `k`, from
    /// 0, and of the `access-log` of this number, from 0 in the order of the text.
    fn put(&mut self, k: u32, j: u32, number: u32, line: &[u8]) -> Put
        ensures lines { PutAdds (shows self.old) (shows self.new) result
            (line_told k j number line.now) }
        ensures failed { result ≡ Put.Failed → Rose (faults_for (shows self.old).faults k)
            (faults_for (shows self.new).faults k) }
        ensures later { faults_for (shows self.old).faults k ≤ faults_for (shows self.new).faults k }
        ensures others { KeepsOtherFaults (shows self.old).faults (shows self.new).faults k };
}
