//! A folder on the disk.

ghost use Rattle.std.specs.Prelude.{◌≡◌, ◌<◌, ◌≤◌, IfOk, IfSome, length};
ghost use Rattle.tow_disk.specs.Disk.{disk_folder};

use crate::finding::{Found, find};
use crate::listing::names_at;
use std::fs::File;
use std::io::ErrorKind;
use std::os::unix::fs::FileExt;
use std::path::{Path, PathBuf};
use std::rt::HostRuntime;
use std::{fs, io};
use tow_folder::{Folder, Listed, Look, Part};
use tow_model::Bytes;

/// Why there is no folder under a name.
#[derive(Clone, Copy, Debug)]
pub enum NoFolder {
    /// No directory that may be read has this name, and this is what the system said.
    Missing(io::Error),
    NoMemory,
}

/// A folder on the disk, whose one counter of faults stands for each connection. It serves the
/// regular files under a directory and nothing outside it. The file that was asked for last stays
/// open until another path is read, or until the next look.
#[derive(Drop)]
pub struct DiskFolder {
    rt: HostRuntime,
    // the directory without links
    root: PathBuf,
    open: Option<OpenFile>,
    faults: u64,
}

/// A file that is open for reading, with the path under which it was asked for.
#[derive(Drop)]
struct OpenFile {
    path: Bytes,
    file: File,
}

impl DiskFolder {
    /// The folder of the directory of this name. Takes memory.
    pub fn new(rt: HostRuntime, dir: &str) -> Result<DiskFolder, NoFolder>
        ensures { IfOk result (λ folder. ⟦<DiskFolder as Folder>⟧.shows folder ≡ disk_folder 0) }
    {
        match root_of(rt, dir) {
            Ok(root) => Ok(DiskFolder {
                rt,
                root,
                open: None,
                faults: 0,
            }),
            Err(error) if error.kind() == ErrorKind::OutOfMemory => Err(NoFolder::NoMemory),
            Err(error) => Err(NoFolder::Missing(error)),
        }
    }

    /// How often a call has failed. The count stands still at its last value.
    pub fn faults(&self) -> u64
        ensures { result ≡ self.now.faults }
    {
        self.faults
    }
}

/// The name of a directory that may be read, without links.
fn root_of(rt: HostRuntime, dir: &str) -> io::Result<PathBuf> {
    let root = fs::canonicalize(&rt, dir)?;
    let _listing = fs::read_dir(&rt, root.as_path())?;
    Ok(root)
}

impl Folder for DiskFolder {
    ghost shows = { λ folder. disk_folder folder.faults };

    ghost is_mapped = { λ folder. tt };

    fn look(&mut self, k: u32, path: &[u8]) -> Look {
        self.open = None;
        match find(self.rt, self.root.as_path(), path) {
            Ok(Found::File { file, len, second }) => {
                self.open = kept(self.rt, path, file);
                Look::File { len, second }
            }
            Ok(Found::Directory) => Look::Directory,
            Ok(Found::Absent) => Look::Absent,
            Err(_) => {
                self.faults = self.faults.saturating_add(1);
                Look::Failed
            }
        }
    }

    fn read_at(&mut self, k: u32, path: &[u8], at: u64, to: &mut [u8]) -> Part {
        if !is_open(&self.open, path) {
            self.open = opened(self.rt, self.root.as_path(), path);
        }
        match read_open(&self.open, at, to) {
            Some(count) => Part::Got(count),
            None => {
                self.faults = self.faults.saturating_add(1);
                Part::Failed
            }
        }
    }

    fn names(&mut self, k: u32, path: &[u8]) -> Listed {
        match names_at(self.rt, self.root.as_path(), path) {
            Ok(names) => Listed::Names(names),
            Err(error) if error.kind() == ErrorKind::OutOfMemory => Listed::NoMemory,
            Err(_) => {
                self.faults = self.faults.saturating_add(1);
                Listed::Failed
            }
        }
    }
}

/// The file under its path; without memory for the path it is closed again.
fn kept(rt: HostRuntime, path: &[u8], file: File) -> Option<OpenFile> {
    let path = Bytes::from_slice(rt.alloc(), path).ok()?;
    Some(OpenFile { path, file })
}

/// The regular file at the path, opened.
fn opened(rt: HostRuntime, root: Path<'_>, path: &[u8]) -> Option<OpenFile> {
    match find(rt, root, path) {
        Ok(Found::File { file, .. }) => kept(rt, path, file),
        _ => None,
    }
}

/// Whether the file that is open is the one at this path.
fn is_open(open: &Option<OpenFile>, path: &[u8]) -> bool {
    match open {
        Some(open) => open.path.as_slice() == path,
        None => false,
    }
}

/// How many bytes were read of the open file from this place on, if there are some.
fn read_open(open: &Option<OpenFile>, at: u64, to: &mut [u8]) -> Option<usize>
    ensures { IfSome result (λ count. (0 < count) × (count ≤ length to.new)) }
{
    let open = open.as_ref()?;
    match open.file.read_at(to, at) {
        Ok(count) if count > 0 => Some(count),
        _ => None,
    }
}
