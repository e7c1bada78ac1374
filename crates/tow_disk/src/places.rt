//! Where a path of the folder's map lies on the disk.

use std::alloc::AllocError;
use std::fs::Metadata;
use std::io::ErrorKind;
use std::path::{Path, PathBuf};
use std::rt::HostRuntime;
use std::{fs, io};

/// What a regular file or a directory of the folder has on the disk.
#[derive(Drop)]
pub struct Place {
    /// Its name without links and dot segments.
    pub name: PathBuf,
    pub metadata: Metadata,
}

/// What lies under the root at a path of the map. Nothing is there if the path leads out of the
/// root, by a link or otherwise, if it has a segment `.` or `..`, if it may not be reached, or if
/// it is neither a regular file nor a directory. Takes memory.
pub fn place_at(rt: HostRuntime, root: Path<'_>, path: &[u8]) -> io::Result<Option<Place>> {
    if path.split(|b| *b == b'/').any(|segment| is_dots(segment)) {
        return Ok(None);
    }
    let Some(name) = joined(rt, root, path)? else {
        return Ok(None);
    };
    if_there(inside(rt, root, name.as_str()))
}

/// Whether a segment of a path stands for a directory and is no name.
fn is_dots(segment: &[u8]) -> bool {
    matches!(segment, b"." | b"..")
}

/// The root's name with the path behind it; none if the path is no text. Takes memory.
fn joined(rt: HostRuntime, root: Path<'_>, path: &[u8]) -> Result<Option<String>, AllocError> {
    let Ok(path) = std::str::from_utf8(path) else {
        return Ok(None);
    };
    let mut name = String::from_str(rt.alloc(), root.as_str())?;
    name.push_str(path)?;
    Ok(Some(name))
}

/// The file or the directory of this name on the disk, if it lies under the root without its links.
/// Takes memory.
pub fn inside(rt: HostRuntime, root: Path<'_>, name: &str) -> io::Result<Option<Place>> {
    let name = fs::canonicalize(&rt, name)?;
    if !name.starts_with(root) {
        return Ok(None);
    }
    let metadata = fs::metadata(&rt, name.as_path())?;
    if metadata.is_file() || metadata.is_dir() {
        return Ok(Some(Place { name, metadata }));
    }
    Ok(None)
}

/// The value, or none where the error says that nothing can be reached there.
pub fn if_there<T: Drop>(found: io::Result<Option<T>>) -> io::Result<Option<T>> {
    match found {
        Ok(found) => Ok(found),
        Err(error) if is_absence(error.kind()) => Ok(None),
        Err(error) => Err(error),
    }
}

/// Whether an error says that there is nothing that could be served: no such name, one that no file
/// can have, a link that leads nowhere, or no leave to read.
fn is_absence(kind: ErrorKind) -> bool {
    matches!(
        kind,
        ErrorKind::NotFound
            | ErrorKind::NotADirectory
            | ErrorKind::PermissionDenied
            | ErrorKind::FilesystemLoop
            | ErrorKind::InvalidFilename
            | ErrorKind::InvalidInput
    )
}
