//! The machine's text files.

ghost use Rattle.std.specs.Prelude.{◌≡◌, None};

use crate::streams::Reading;
use std::alloc::Global;
use std::fs::File;
use std::io::Error;
use tow_link::{Read, Source};

/// A text file, which keeps what was read of it, so that a fault of the text can be shown.
#[derive(Drop)]
pub struct FileText {
    file: Reading<File>,
    read: Vec<u8>,
    // whether memory was short for a part of that
    is_cut: bool,
}

impl FileText {
    /// The text of this file, from its front.
    pub(crate) fn new(alloc: Global, file: File) -> FileText
        ensures { ⟦<FileText as Source>⟧.shows result ≡ record { faults = 0; told = None } }
    {
        FileText {
            file: Reading::new(file),
            read: Vec::new(alloc),
            is_cut: false,
        }
    }

    /// What was read of it, if there was memory to keep all of that.
    pub fn bytes(&self) -> Option<&[u8]> {
        if self.is_cut {
            return None;
        }
        Some(&self.read)
    }

    /// Why a read of it failed first, if one has.
    pub fn reason(&self) -> Option<Error> {
        self.file.reason()
    }

    /// Keeps what was read.
    fn keep(&mut self, bytes: &[u8])
        ensures { self.new.file ≡ self.old.file }
    {
        if self.read.extend_from_slice(bytes).is_err() {
            self.is_cut = true;
        }
    }
}

impl Source for FileText {
    ghost shows = { λ text. ⟦<Reading<File> as Source>⟧.shows text.file };

    fn read(&mut self, to: &mut [u8]) -> Read {
        let read = self.file.read(to);
        if let Read::Got(count) = read {
            self.keep(&to[..count]);
        }
        read
    }
}
