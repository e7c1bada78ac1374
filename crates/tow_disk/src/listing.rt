//! The names in a directory of the disk.

use crate::places::{Place, if_there, inside, place_at};
use std::fs::DirEntry;
use std::io::ErrorKind;
use std::path::Path;
use std::rt::HostRuntime;
use std::{fs, io};
use tow_folder::Name;
use tow_model::{Bytes, List};

/// The names of the regular files and the directories in the directory at a path of the map; none
/// if there is no directory that may be read. A name that is no text is left out, and so is what
/// leads out of the root. Takes memory.
pub fn names_at(rt: HostRuntime, root: Path<'_>, path: &[u8]) -> io::Result<List<Name>> {
    let mut names = List::new(rt.alloc());
    let Some(place) = place_at(rt, root, path)? else {
        return Ok(names);
    };
    if place.metadata.is_dir() {
        let _read = if_there(add_names(rt, root, place.name.as_path(), &mut names).map(Some))?;
    }
    Ok(names)
}

/// Adds the names in the directory of this name on the disk. Takes memory.
fn add_names(
    rt: HostRuntime,
    root: Path<'_>,
    directory: Path<'_>,
    names: &mut List<Name>,
) -> io::Result<()> {
    for entry in fs::read_dir(&rt, directory)? {
        if let Some(entry) = named(entry)? {
            if let Some(name) = child(rt, root, &entry)? {
                names.push(name)?;
            }
        }
    }
    Ok(())
}

/// The entry's name and whether it is a directory, if it is a file or a directory with a child.
fn child(rt: HostRuntime, root: Path<'_>, entry: &DirEntry) -> io::Result<Option<Name>> {
    let Some(place) = if_there(entry_place(rt, root, entry))? else {
        return Ok(None);
    };
    let directory = place.metadata.is_dir();
    if directory && !has_child(rt, root, place.name.as_path())? {
        return Ok(None);
    }
    let text = Bytes::from_slice(rt.alloc(), entry.file_name().as_bytes())?;
    Ok(Some(Name { text, directory }))
}

/// Whether the directory of this name on the disk has a file or a directory in it; not if it may
/// not be read. Takes memory.
pub fn has_child(rt: HostRuntime, root: Path<'_>, directory: Path<'_>) -> io::Result<bool> {
    Ok(if_there(first_child(rt, root, directory))?.is_some())
}

/// The first file or directory in the directory of this name on the disk.
fn first_child(rt: HostRuntime, root: Path<'_>, directory: Path<'_>) -> io::Result<Option<Place>> {
    for entry in fs::read_dir(&rt, directory)? {
        if let Some(entry) = named(entry)? {
            if let Some(place) = if_there(entry_place(rt, root, &entry))? {
                return Ok(Some(place));
            }
        }
    }
    Ok(None)
}

/// What the entry is, where a link leads to what it names.
fn entry_place(rt: HostRuntime, root: Path<'_>, entry: &DirEntry) -> io::Result<Option<Place>> {
    inside(rt, root, entry.path().as_str())
}

/// The entry, if its name is a text.
fn named(entry: io::Result<DirEntry>) -> io::Result<Option<DirEntry>> {
    match entry {
        Ok(entry) => Ok(Some(entry)),
        Err(error) if error.kind() == ErrorKind::InvalidFilename => Ok(None),
        Err(error) => Err(error),
    }
}
