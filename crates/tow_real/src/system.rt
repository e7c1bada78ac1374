//! The machine as a host: its standard streams, its text files, its folders and its log files.

ghost use Rattle.std.specs.Prelude.{◌≡◌, true};
ghost use Rattle.tow_host.specs.Held.{with_kept};
ghost use Rattle.tow_real.specs.Machine.{machine_held};

use crate::clock::SystemClock;
use crate::failure::{Failure, Task};
use crate::log::SystemLog;
use crate::streams::{Reading, Writing};
use crate::text::FileText;
use std::alloc::Global;
use std::fs::File;
use std::io::{Error, Stdin, Stdout};
use std::rt::HostRuntime;
use tow_disk::{DiskFolder, NoFolder};
use tow_folder::Folder;
use tow_host::{Host, HostFault, Kept, LogSink, count_parts, hold_part, hold_parts};
use tow_link::{Joined, Made, Maker, PackMaker, Sink, Source};
use tow_model::Account;

/// The machine, one counter of which stands for the faults of each name of a text, and another for those of each name of a
/// folder. It never refuses a log.
#[derive(Drop)]
pub struct SystemHost {
    rt: HostRuntime,
    faults: u64,
    handed: u64,
    returned: u64,
    streams: Option<Joined<Reading<Stdin>, Writing<Stdout>>>,
    kept_text: Option<FileText>,
    maker: PackMaker,
    folders: Vec<DiskFolder>,
    folders_handed: u64,
    folders_returned: u64,
    folder_faults: u64,
    logs: Vec<SystemLog>,
    logs_handed: u64,
    logs_returned: u64,
    account: Option<Account>,
    // the name of the text that was asked for last, if there was memory for it
    text_name: Option<String>,
    // what the system said, if that text could not be had
    text_reason: Option<Error>,
    // the same of the folder that was asked for last
    folder_name: Option<String>,
    folder_reason: Option<Error>,
}

impl SystemHost {
    /// The machine with its standard streams.
    pub fn new(rt: HostRuntime) -> SystemHost
        ensures home { (⟦<SystemHost as Host>⟧.held result).is_home ≡ true }
    {
        let input = Reading::new(rt.stdin());
        let output = Writing::new(rt.stdout());
        SystemHost {
            rt,
            faults: 0,
            handed: 0,
            returned: 0,
            streams: Some(Joined { input, output }),
            kept_text: None,
            maker: PackMaker::new(),
            folders: Vec::new(rt.alloc()),
            folders_handed: 0,
            folders_returned: 0,
            folder_faults: 0,
            logs: Vec::new(rt.alloc()),
            logs_handed: 0,
            logs_returned: 0,
            account: None,
            text_name: None,
            text_reason: None,
            folder_name: None,
            folder_reason: None,
        }
    }

    /// What was read of the text that was handed back last, if there was memory to keep it.
    pub fn text_read(&self) -> Option<&[u8]> {
        match &self.kept_text {
            Some(text) => text.bytes(),
            None => None,
        }
    }

    /// That the text that was asked for last could not be had or read, and why.
    pub fn text_failure(&self) -> Failure<'_> {
        Failure {
            task: Task::Text(name_or_empty(&self.text_name)),
            reason: self.text_reason.or(self.read_reason()),
        }
    }

    /// That the folder that was asked for last could not be had, and why.
    pub fn folder_failure(&self) -> Failure<'_> {
        Failure {
            task: Task::Folder(name_or_empty(&self.folder_name)),
            reason: self.folder_reason,
        }
    }

    /// What the system said at the first failed read of the text that was handed back last.
    fn read_reason(&self) -> Option<Error> {
        match &self.kept_text {
            Some(text) => text.reason(),
            None => None,
        }
    }

    /// That the standard input could not be read or the standard output written, and why.
    pub fn stream_failure(&self) -> Failure<'_> {
        let (read, written) = match &self.streams {
            Some(streams) => (streams.input.reason(), streams.output.reason()),
            None => (None, None),
        };
        match read {
            Some(_) => Failure {
                task: Task::Input,
                reason: read,
            },
            None => Failure {
                task: Task::Output,
                reason: written,
            },
        }
    }
}

/// The name, or an empty one if there was no memory to keep it.
fn name_or_empty(name: &Option<String>) -> &str {
    match name {
        Some(name) => name.as_str(),
        None => "",
    }
}

impl Maker for SystemHost {
    ghost use Rattle.std.proofs.Common.{ap, refl, ◌∙◌};
    ghost use Rattle.tow_real.specs.declared.system.SystemHost.{SystemHost};

    ghost larges = { λ host pattern. host.maker };

    ghost stays = { λ old new. new ≡ record old { maker = new.maker } };

    fn make(&mut self, alloc: Global, pattern: &[u8]) -> Made {
        self.maker.make(alloc, pattern)
    }

    ghost stays_same = { λ host. refl };

    ghost stays_on = { λ first next last one two. two ∙ ap
        (λ (host : SystemHost). record host { maker = last.maker }) one };
}

impl Host for SystemHost {
    ghost use Rattle.std.proofs.Common.{ap};
    ghost use Rattle.tow_real.specs.declared.system.SystemHost.{SystemHost};

    type Text = FileText;

    type Input = Reading<Stdin>;

    type Output = Writing<Stdout>;

    type Folder = DiskFolder;

    type Clock = SystemClock;

    type Log = SystemLog;

    ghost held = { λ host. machine_held ⟦<FileText as Source>⟧.shows ⟦<Reading<Stdin> as Source>⟧.shows
        ⟦<Writing<Stdout> as Sink>⟧.shows ⟦<DiskFolder as Folder>⟧.shows ⟦<SystemLog as LogSink>⟧.shows
        host.kept_text host.handed host.returned host.faults host.streams host.maker
        host.folders.items host.folders_handed host.folders_returned host.folder_faults
        host.logs.items host.logs_handed host.logs_returned host.account };

    fn text(&mut self, name: &str) -> Result<FileText, HostFault> {
        self.text_name = String::from_str(self.rt.alloc(), name).ok();
        match File::open(&self.rt, name) {
            Ok(file) => {
                self.text_reason = None;
                self.handed = self.handed.saturating_add(1);
                Ok(FileText::new(self.rt.alloc(), file))
            }
            Err(error) => {
                self.text_reason = Some(error);
                self.faults = self.faults.saturating_add(1);
                Err(HostFault::Failed)
            }
        }
    }

    #[tactic(auto, using(crate::proofs::Opening::is_new))]
    fn folder(&mut self, dir: &str) -> Result<DiskFolder, HostFault> {
        self.folder_name = String::from_str(self.rt.alloc(), dir).ok();
        self.folder_reason = None;
        match DiskFolder::new(self.rt, dir) {
            Ok(folder) => {
                self.folders_handed = self.folders_handed.saturating_add(1);
                Ok(folder)
            }
            Err(NoFolder::Missing(error)) => {
                self.folder_reason = Some(error);
                self.folder_faults = self.folder_faults.saturating_add(1);
                Err(HostFault::Failed)
            }
            Err(NoFolder::NoMemory) => Err(HostFault::NoMemory),
        }
    }

    fn log(&mut self, number: u32) -> Result<SystemLog, HostFault> {
        self.logs_handed = self.logs_handed.saturating_add(1);
        Ok(SystemLog::new(self.rt, number))
    }

    fn clock(&mut self, moment: Option<u64>) -> SystemClock {
        SystemClock::new(self.rt, moment)
    }

    fn lend(&mut self) -> Joined<Reading<Stdin>, Writing<Stdout>> {
        self.streams.take().unwrap()
    }

    #[tactic(auto, using(tow_host::proofs::Holding::shows_held))]
    fn take_back(
        &mut self,
        kept: Kept<FileText, Joined<Reading<Stdin>, Writing<Stdout>>, DiskFolder, SystemLog>,
    )
        ensures held { ⟦<SystemHost as Host>⟧.held self.new
            ≡ with_kept ⟦<FileText as Source>⟧.shows ⟦<Reading<Stdin> as Source>⟧.shows
            ⟦<Writing<Stdout> as Sink>⟧.shows ⟦<DiskFolder as Folder>⟧.shows
            ⟦<SystemLog as LogSink>⟧.shows kept (⟦<SystemHost as Host>⟧.held self.old) }
    {
        let Kept {
            text,
            streams,
            folders,
            logs,
            account,
        } = kept;
        if text.is_some() {
            self.returned = self.returned.saturating_add(1);
        }
        hold_part(&mut self.kept_text, text);
        hold_part(&mut self.streams, streams);
        self.folders_returned = count_parts(self.folders_returned, &folders);
        hold_parts(&mut self.folders, folders);
        self.logs_returned = count_parts(self.logs_returned, &logs);
        hold_parts(&mut self.logs, logs);
        hold_part(&mut self.account, account);
    }

    ghost stays_held = { λ old new stays. ap
        (λ (host : SystemHost). machine_held ⟦<FileText as Source>⟧.shows ⟦<Reading<Stdin> as Source>⟧.shows
        ⟦<Writing<Stdout> as Sink>⟧.shows ⟦<DiskFolder as Folder>⟧.shows ⟦<SystemLog as LogSink>⟧.shows
        host.kept_text host.handed host.returned host.faults host.streams host.maker
        host.folders.items host.folders_handed host.folders_returned host.folder_faults
        host.logs.items host.logs_handed host.logs_returned host.account) stays };
}
