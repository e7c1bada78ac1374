//! What a look at the disk finds.

use crate::listing::has_child;
use crate::places::{Place, if_there, place_at};
use std::fs::{File, Metadata};
use std::io;
use std::path::Path;
use std::rt::HostRuntime;
use std::time::SystemTime;

/// What stands at a path of the folder.
#[derive(Drop)]
pub enum Found {
    /// A regular file, open for reading, with its length in bytes and its second since 1970.
    File { file: File, len: u64, second: u64 },
    /// A directory that has a child.
    Directory,
    Absent,
}

/// Looks at a path of the map under the root. Takes memory.
pub fn find(rt: HostRuntime, root: Path<'_>, path: &[u8]) -> io::Result<Found> {
    let Some(place) = place_at(rt, root, path)? else {
        return Ok(Found::Absent);
    };
    match if_there(opened(rt, root, &place))? {
        Some(found) => Ok(found),
        None => Ok(Found::Absent),
    }
}

/// The file, or the directory if it has a child.
fn opened(rt: HostRuntime, root: Path<'_>, place: &Place) -> io::Result<Option<Found>> {
    if place.metadata.is_dir() {
        let found = has_child(rt, root, place.name.as_path())?.then_some(Found::Directory);
        return Ok(found);
    }
    let file = File::open(&rt, place.name.as_path())?;
    let metadata = file.metadata()?;
    if !metadata.is_file() {
        return Ok(None);
    }
    let (len, second) = (metadata.len(), second_of(&metadata));
    Ok(Some(Found::File { file, len, second }))
}

/// When a file was last changed, in seconds since 1970; 0 if that lies before or is not told.
fn second_of(metadata: &Metadata) -> u64 {
    let Ok(time) = metadata.modified() else {
        return 0;
    };
    match time.duration_since(SystemTime::UNIX_EPOCH) {
        Ok(since) => since.as_secs(),
        Err(_) => 0,
    }
}
