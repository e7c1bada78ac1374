//! The machine as the server sees it, and what is handed back to it.

ghost use Rattle.std.specs.Prelude.{◌≡◌, ◌<◌, ◌≤◌, true, Err, IfOk};
ghost use Rattle.std.specs.Result.{is_ok};
ghost use Rattle.std.specs.Option.{ForSome};
ghost use Rattle.tow_link.specs.Data.{Rose};
ghost use Rattle.tow_link.specs.Counts.{count_at, KeepsOthers};
ghost use Rattle.tow_faults.specs.Faults.{KeepsOtherFaults, faults_for};
ghost use Rattle.tow_host.specs.Held.{Held, AsksFolder, AsksLog, AsksText, IsFresh, IsNewFolder, IsNewLog, Lends, with_kept};
ghost use Rattle.tow_host.specs.Maps.{ShowsMap};
ghost use Rattle.tow_host.specs.Moments.{clock_table};
ghost use Rattle.tow_host.specs.Texts.{ShowsText};
ghost use Rattle.tow_model.specs.declared.limits.TheConstants.{FIRST_UNDATED};

use crate::{Clock, Kept, LogSink};
use tow_folder::Folder;
use tow_link::{Joined, Maker, Sink, Source};

/// Why a host did not give what it was asked for.
#[derive(Clone, Copy, Debug, PartialEq, Eq)]
pub enum HostFault {
    /// The host failed, and counted it under the argument of the call.
    Failed,
    NoMemory,
}

/// The machine as the server sees it. What it handed out is handed back to it, so that a promise of the layers above
/// can speak of what it then holds. It is the maker of patterns too, whose counts no call but `make` changes.
///
/// Each call has one clause, the last, that says all that stays as it was.
pub trait Host: Maker {
    type Text: Source + Drop;

    type Input: Source + Drop;

    type Output: Sink + Drop;

    type Folder: Folder + Drop;

    type Clock: Clock + Drop;

    type Log: LogSink + Drop;

    /// All that contracts see of it.
    ghost held: { Self → Held };

    /// A source of the text of this name, from its front. A host that tells fails where it has no such text.
    fn text(&mut self, name: &str) -> Result<Self::Text, HostFault>
        ensures fresh { IfOk result (λ text. IsFresh (Self.Text.shows text)) }
        ensures named { IfOk result (λ text. ShowsText (held self.old).texts name.now
            (Self.Text.shows text)) }
        ensures failed { result ≡ Err HostFault.Failed
            → Rose (count_at (held self.old).text_faults name.now)
            (count_at (held self.new).text_faults name.now) }
        ensures later { count_at (held self.old).text_faults name.now ≤ count_at
            (held self.new).text_faults name.now }
        ensures others { KeepsOthers (held self.old).text_faults (held self.new).text_faults
            name.now }
        ensures held { AsksText (is_ok result) (held self.old) (held self.new) };

    /// The folder of this name. It has not failed yet. A host that tells fails where it has no such folder.
    fn folder(&mut self, dir: &str) -> Result<Self::Folder, HostFault>
        ensures fresh { IfOk result (λ folder. IsNewFolder (Self.Folder.shows folder)) }
        ensures named { IfOk result (λ folder. ShowsMap (held self.old).maps dir.now
            (Self.Folder.shows folder)) }
        ensures failed { result ≡ Err HostFault.Failed
            → Rose (count_at (held self.old).folder_faults dir.now)
            (count_at (held self.new).folder_faults dir.now) }
        ensures later { count_at (held self.old).folder_faults dir.now ≤ count_at
            (held self.new).folder_faults dir.now }
        ensures others { KeepsOthers (held self.old).folder_faults (held self.new).folder_faults
            dir.now }
        ensures held { AsksFolder (is_ok result) (held self.old) (held self.new) };

    /// A clock: of this one moment, in seconds since 1970 and before the year 10000, or that of the host. Takes no
    /// memory.
    fn clock(&mut self, moment: Option<u64>) -> Self::Clock
        requires { ForSome moment (λ second. second < FIRST_UNDATED) }
        ensures table { Self.Clock.table result ≡ clock_table (held self.old).moments moment }
        ensures held { held self.new ≡ held self.old };

    /// The log of this number, from 0. It has not failed yet and, where it tells, has no lines.
    fn log(&mut self, number: u32) -> Result<Self::Log, HostFault>
        ensures fresh { IfOk result (λ log. IsNewLog (Self.Log.shows log)) }
        ensures failed { result ≡ Err HostFault.Failed
            → Rose (faults_for (held self.old).log_faults number)
            (faults_for (held self.new).log_faults number) }
        ensures later { faults_for (held self.old).log_faults number
            ≤ faults_for (held self.new).log_faults number }
        ensures others { KeepsOtherFaults (held self.old).log_faults (held self.new).log_faults
            number }
        ensures held { AsksLog (is_ok result) (held self.old) (held self.new) };

    /// Lends the streams. While they are out, nothing is said of their data in what the host holds. Takes no memory.
    fn lend(&mut self) -> Joined<Self::Input, Self::Output>
        requires { (held self.old).is_home ≡ true }
        ensures input { Self.Input.shows result.input ≡ (held self.old).input }
        ensures output { Self.Output.shows result.output ≡ (held self.old).output }
        ensures held { Lends (held self.old) (held self.new) };

    /// Takes back what is there of the parts, and holds them. Takes no memory.
    fn take_back(
        &mut self,
        kept: Kept<Self::Text, Joined<Self::Input, Self::Output>, Self::Folder, Self::Log>,
    )
        ensures held { held self.new
            ≡ with_kept Self.Text.shows Self.Input.shows Self.Output.shows Self.Folder.shows
            Self.Log.shows kept (held self.old) };

    /// Making a pattern changes the counts of large patterns alone, which are those of the maker.
    ghost stays_held: { (old new : Self) → Self.stays old new
        → held new ≡ record (held old) { larges = Self.larges new } };
}
