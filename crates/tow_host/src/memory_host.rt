//! A host in memory: its texts, its folders, its streams, its moments and what fails are given, and contracts see all of them.

ghost use Rattle.std.specs.Prelude.{◌≡◌, ◌≤◌, [], Some, None, true, IfOk, map, nat_lt, option_copied, option_map, slice_get, if◌then◌else◌};
ghost use Rattle.tow_link.specs.Data.{Rose};
ghost use Rattle.tow_link.specs.Counts.{count_at, own_counts, KeepsOthers};
ghost use Rattle.tow_faults.specs.Faults.{KeepsOtherFaults, faults_for};
ghost use Rattle.tow_host.specs.Held.{no_source, with_kept};
ghost use Rattle.tow_host.specs.Logs.{memory_log, refused_faults, times_among};
ghost use Rattle.tow_host.specs.Memory.{folder_seen, memory_held};

use crate::kept::{count_parts, hold_part, hold_parts};
use crate::{Host, HostFault, Kept, MemoryClock, MemoryFolders, MemoryLog, MemoryTexts};
use std::alloc::{AllocError, Global};
use std::marker::Model;
use tow_folder::{Folder, MemoryFolder};
use tow_link::{
    CallNumbers, Joined, KeyCounts, Made, Maker, MemoryMaker, MemorySink, MemorySource,
};
use tow_model::{Account, Line};

/// A host in memory, which tells its texts, the files of its folders, its moments and the lines of its logs.
#[derive(Drop)]
pub struct MemoryHost {
    texts: MemoryTexts,
    clock: MemoryClock,
    failing: CallNumbers,
    faults: KeyCounts,
    kept_text: Option<MemorySource>,
    handed: u64,
    returned: u64,
    streams: Option<Joined<MemorySource, MemorySink>>,
    maker: MemoryMaker,
    maps: MemoryFolders,
    failing_folders: CallNumbers,
    folder_faults: KeyCounts,
    folders: Vec<MemoryFolder>,
    folders_handed: u64,
    folders_returned: u64,
    failing_logs: CallNumbers,
    // the puts that fail, of each log by itself
    failing_puts: Vec<u64>,
    logs: Vec<MemoryLog>,
    logs_handed: u64,
    logs_returned: u64,
    // the numbers of the logs that it refused, one for each
    refused_logs: Vec<u32>,
    account: Option<Account>,
}

impl Model for MemoryHost {
    ghost use Rattle.std.specs.Prelude.{◌≡◌, is_some, map, nat_lt};
    ghost use Rattle.std.specs.Option.{option_map_or};
    ghost use Rattle.tow_host.specs.Held.{no_source, no_sink, input_shown, output_shown};
    ghost use Rattle.tow_host.specs.Memory.{MemoryHostData, folder_seen};

    ghost Value = { MemoryHostData };

    ghost view = { λ host. record {
      text = option_map_or (λ text. text) host.kept_text no_source;
      handed = host.handed;
      returned = host.returned;
      text_faults = host.faults;
      texts = host.texts;
      is_home = is_some host.streams;
      input = option_map_or (input_shown (λ input. input)) host.streams no_source;
      output = option_map_or (output_shown (λ output. output)) host.streams no_sink;
      maker = host.maker;
      moments = host.clock;
      folders = map folder_seen host.folders.items;
      folders_handed = host.folders_handed;
      folders_returned = host.folders_returned;
      folder_faults = host.folder_faults;
      maps = host.maps;
      logs = host.logs.items;
      logs_handed = host.logs_handed;
      logs_returned = host.logs_returned;
      refused_logs = host.refused_logs.items;
      account = host.account;
    } };

    ghost invariant = { λ host. is_some host.kept_text ≡ nat_lt 0 host.returned };
}

impl MemoryHost {
    /// A host of these parts, which has no folders. The calls of `text` of these numbers, from 0, fail, and none of `log`.
    pub fn new(
        alloc: Global,
        texts: MemoryTexts,
        streams: Joined<MemorySource, MemorySink>,
        clock: MemoryClock,
        failing: Vec<u64>,
    ) -> Self
        ensures { result ≡ record {
          text = no_source;
          handed = 0;
          returned = 0;
          text_faults = [];
          texts = texts;
          is_home = true;
          input = streams.input;
          output = streams.output;
          maker = own_counts [];
          moments = clock;
          folders = [];
          folders_handed = 0;
          folders_returned = 0;
          folder_faults = [];
          maps = [];
          logs = [];
          logs_handed = 0;
          logs_returned = 0;
          refused_logs = [];
          account = None;
        } }
    {
        MemoryHost {
            texts,
            clock,
            failing: CallNumbers::new(failing),
            faults: KeyCounts::new(alloc),
            kept_text: None,
            handed: 0,
            returned: 0,
            streams: Some(streams),
            maker: MemoryMaker::new(KeyCounts::new(alloc)),
            maps: MemoryFolders::new(Vec::new(alloc)),
            failing_folders: CallNumbers::new(Vec::new(alloc)),
            folder_faults: KeyCounts::new(alloc),
            folders: Vec::new(alloc),
            folders_handed: 0,
            folders_returned: 0,
            failing_logs: CallNumbers::new(Vec::new(alloc)),
            failing_puts: Vec::new(alloc),
            logs: Vec::new(alloc),
            logs_handed: 0,
            logs_returned: 0,
            refused_logs: Vec::new(alloc),
            account: None,
        }
    }

    /// The same host with this maker of patterns. That of a new host refuses none but those that `regex` refuses.
    pub fn with_maker(self, maker: MemoryMaker) -> Self
        ensures { result ≡ record self { maker = maker } }
    {
        MemoryHost { maker, ..self }
    }

    /// The same host with these folders, whose calls of `folder` of these numbers, from 0, fail.
    pub fn with_folders(self, folders: MemoryFolders, failing: Vec<u64>) -> Self
        ensures { result ≡ record self { maps = folders } }
    {
        MemoryHost {
            maps: folders,
            failing_folders: CallNumbers::new(failing),
            ..self
        }
    }

    /// The same host, of which the calls of `log` of these numbers fail, and of each of its logs the
    /// puts of those numbers. All count from 0.
    pub fn with_failing_logs(self, logs: Vec<u64>, puts: Vec<u64>) -> Self
        ensures { result ≡ self }
    {
        MemoryHost {
            failing_logs: CallNumbers::new(logs),
            failing_puts: puts,
            ..self
        }
    }

    /// The input, where it is not lent.
    pub fn input(&self) -> Option<&MemorySource>
        ensures { option_copied result ≡ (if self.now.is_home then Some self.now.input else None) }
    {
        self.streams.as_ref().map(|streams| &streams.input)
    }

    /// The output, where it is not lent.
    pub fn output(&self) -> Option<&MemorySink>
        ensures { option_copied result ≡ (if self.now.is_home then Some self.now.output else None) }
    {
        self.streams.as_ref().map(|streams| &streams.output)
    }

    /// How often it has refused this pattern as too large.
    pub fn larges_of(&self, pattern: &[u8]) -> u64
        ensures { result ≡ count_at self.now.maker pattern.now }
    {
        self.maker.larges_of(pattern)
    }

    /// The text source that was handed back last.
    pub fn kept_text(&self) -> Option<&MemorySource>
        ensures { option_copied result
            ≡ (if nat_lt 0 self.now.returned then Some self.now.text else None) }
    {
        self.kept_text.as_ref()
    }

    /// How many text sources were handed back.
    pub fn returned(&self) -> u64
        ensures { result ≡ self.now.returned }
    {
        self.returned
    }

    /// How many calls of `text` with this name have failed.
    pub fn faults_of(&self, name: &str) -> u64
        ensures { result ≡ count_at (own_counts self.now.text_faults) name.now }
    {
        self.faults.at(name.as_bytes())
    }
}

impl MemoryHost {
    /// The folders that were handed back last.
    pub fn folders(&self) -> &[MemoryFolder]
        ensures { map folder_seen result.now ≡ self.now.folders }
    {
        &self.folders
    }

    /// How many folders were handed out.
    pub fn folders_handed(&self) -> u64
        ensures { result ≡ self.now.folders_handed }
    {
        self.folders_handed
    }

    /// How many folders were handed back.
    pub fn folders_returned(&self) -> u64
        ensures { result ≡ self.now.folders_returned }
    {
        self.folders_returned
    }

    /// How many calls of `folder` with this name have failed.
    pub fn folder_faults_of(&self, dir: &str) -> u64
        ensures { result ≡ count_at (own_counts self.now.folder_faults) dir.now }
    {
        self.folder_faults.at(dir.as_bytes())
    }
}

impl MemoryHost {
    /// The logs that were handed back last, in the order of their numbers.
    pub fn logs(&self) -> &[MemoryLog]
        ensures { result.now ≡ self.now.logs }
    {
        &self.logs
    }

    /// The lines of the log of this number, if it was handed back.
    pub fn lines(&self, number: usize) -> Option<&[Line]>
        ensures { option_copied result
            ≡ option_map (λ log. log.lines) (slice_get self.now.logs number) }
    {
        match self.logs.get(number) {
            Some(log) => Some(log.lines()),
            None => None,
        }
    }

    /// How many logs were handed out.
    pub fn logs_handed(&self) -> u64
        ensures { result ≡ self.now.logs_handed }
    {
        self.logs_handed
    }

    /// How many logs were handed back.
    pub fn logs_returned(&self) -> u64
        ensures { result ≡ self.now.logs_returned }
    {
        self.logs_returned
    }

    /// The numbers of the logs that it has refused, one for each, in their order.
    pub fn refused_logs(&self) -> &[u32]
        ensures { result.now ≡ self.now.refused_logs }
    {
        &self.refused_logs
    }

    /// The account that was handed back last.
    pub fn account(&self) -> Option<&Account>
        ensures { option_copied result ≡ self.now.account }
    {
        self.account.as_ref()
    }
}

impl Maker for MemoryHost {
    ghost use Rattle.std.proofs.Common.{ap, refl, ◌∙◌};
    ghost use Rattle.tow_host.specs.Memory.{MemoryHostData, MakerAlone};

    ghost larges = { λ host. count_at host.maker };

    ghost stays = { MakerAlone };

    fn make(&mut self, alloc: Global, pattern: &[u8]) -> Made {
        self.maker.make(alloc, pattern)
    }

    ghost stays_same = { λ host. refl };

    ghost stays_on = { λ first next last one two. two ∙ ap
        (λ (host : MemoryHostData). record host { maker = last.maker }) one };
}

impl Host for MemoryHost {
    type Text = MemorySource;

    type Input = MemorySource;

    type Output = MemorySink;

    type Folder = MemoryFolder;

    type Clock = MemoryClock;

    type Log = MemoryLog;

    ghost use Rattle.std.proofs.Common.{ap};

    ghost held = { memory_held };

    #[tactic(auto, using(tow_link::proofs::Raising::keeps_all))]
    fn text(&mut self, name: &str) -> Result<MemorySource, HostFault> {
        if self.failing.next_is_listed() {
            return Err(failed(&mut self.faults, name));
        }
        match self.texts.open(name) {
            Ok(Some(source)) => {
                self.handed = self.handed.saturating_add(1);
                Ok(source)
            }
            Ok(None) => Err(failed(&mut self.faults, name)),
            Err(_) => Err(HostFault::NoMemory),
        }
    }

    #[tactic(auto, using(tow_link::proofs::Raising::keeps_all))]
    fn folder(&mut self, dir: &str) -> Result<MemoryFolder, HostFault> {
        if self.failing_folders.next_is_listed() {
            return Err(failed(&mut self.folder_faults, dir));
        }
        match self.maps.open(dir) {
            Ok(Some(folder)) => {
                self.folders_handed = self.folders_handed.saturating_add(1);
                Ok(folder)
            }
            Ok(None) => Err(failed(&mut self.folder_faults, dir)),
            Err(_) => Err(HostFault::NoMemory),
        }
    }

    fn clock(&mut self, moment: Option<u64>) -> MemoryClock {
        match moment {
            Some(second) => MemoryClock::fixed(second),
            None => self.clock.again(),
        }
    }

    fn log(&mut self, number: u32) -> Result<MemoryLog, HostFault> {
        if self.failing_logs.next_is_listed() {
            return Err(failed_log(&mut self.refused_logs, number));
        }
        match new_log(&self.failing_puts) {
            Ok(log) => {
                self.logs_handed = self.logs_handed.saturating_add(1);
                Ok(log)
            }
            Err(_) => Err(HostFault::NoMemory),
        }
    }

    fn lend(&mut self) -> Joined<MemorySource, MemorySink> {
        self.streams.take().unwrap()
    }

    #[tactic(auto, using(crate::proofs::Holding::shows_held, crate::proofs::Holding::shows_seen))]
    fn take_back(
        &mut self,
        kept: Kept<MemorySource, Joined<MemorySource, MemorySink>, MemoryFolder, MemoryLog>,
    )
        ensures held { memory_held self.new
            ≡ with_kept (λ text. text) (λ input. input) (λ output. output)
            ⟦<MemoryFolder as Folder>⟧.shows memory_log kept (memory_held self.old) }
    {
        let Kept {
            text,
            streams,
            folders,
            logs,
            account,
        } = kept;
        if text.is_some() {
            self.returned = self.returned.saturating_add(1);
        }
        hold_part(&mut self.kept_text, text);
        hold_part(&mut self.streams, streams);
        self.folders_returned = count_parts(self.folders_returned, &folders);
        hold_parts(&mut self.folders, folders);
        self.logs_returned = count_parts(self.logs_returned, &logs);
        hold_parts(&mut self.logs, logs);
        hold_part(&mut self.account, account);
    }

    ghost stays_held = { λ old new stays. ap memory_held stays };
}

/// Counts a fault under this name. Without memory for the name there is no count, and want of memory is the answer.
#[tactic(auto, using(tow_link::proofs::Raising::rose_here, tow_link::proofs::Raising::later_here, tow_link::proofs::Raising::keeps_others, tow_link::proofs::Raising::keeps_all))]
fn failed(faults: &mut KeyCounts, name: &str) -> HostFault
    ensures failed { result ≡ HostFault.Failed
        → Rose (count_at (own_counts faults.old) name.now)
        (count_at (own_counts faults.new) name.now) }
    ensures later { count_at (own_counts faults.old) name.now ≤ count_at (own_counts faults.new)
        name.now }
    ensures others { KeepsOthers (own_counts faults.old) (own_counts faults.new) name.now }
{
    match faults.raise(name.as_bytes()) {
        Ok(()) => HostFault::Failed,
        Err(_) => HostFault::NoMemory,
    }
}

/// A new log, of which these puts fail. Takes memory for their numbers.
fn new_log(failing: &Vec<u64>) -> Result<MemoryLog, AllocError>
    ensures { IfOk result (λ log. log ≡ record { refused = []; unnoted = 0; lines = [] }) }
{
    Ok(MemoryLog::new(*failing.allocator(), failing.clone()?))
}

/// Counts a fault under the number of a log. Without memory for it there is no count, and want of memory is the answer.
fn failed_log(refused: &mut Vec<u32>, number: u32) -> HostFault
    ensures failed { result ≡ HostFault.Failed
        → Rose (times_among refused.old.items number) (times_among refused.new.items number) }
    ensures later { times_among refused.old.items number ≤ times_among refused.new.items number }
    ensures others { KeepsOtherFaults (refused_faults refused.old.items 0)
        (refused_faults refused.new.items 0) number }
{
    match refused.push(number) {
        Ok(()) => HostFault::Failed,
        Err(_) => HostFault::NoMemory,
    }
}
