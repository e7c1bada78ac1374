//! What a look into a map of files finds.

ghost use Rattle.std.specs.Prelude.{◌≡◌, true, length, if◌then◌else◌};
ghost use Rattle.tow_semantics.specs.Files as semantics;
ghost use Rattle.tow_semantics.specs.Sites.{file_bytes};
ghost use Rattle.tow_folder.specs.Folders.{look_for};
ghost use Rattle.tow_folder.specs.Memory.{files_told};

use crate::mapping::below;
use crate::{Look, MemoryFile};

/// What stands at the path. It goes over the files once.
pub fn look_in(files: &[MemoryFile], path: &[u8]) -> Look
    requires { semantics.is_map (files_told files.now) ≡ true }
    ensures { result ≡ look_for (semantics.look (files_told files.now) path.now) }
{
    if path == b"/".as_slice() {
        return directory_or_absent(!files.is_empty());
    }
    let mut directory = false;
    'files: for file in files {
        if file.path.as_slice() == path {
            return look_of(file);
        }
        if below(path, file.path.as_slice()).is_some() {
            directory = true;
        }
    }
    directory_or_absent(directory)
}

/// A look where no file is.
fn directory_or_absent(directory: bool) -> Look
    ensures { result ≡ (if directory then Look.Directory else Look.Absent) }
{
    if directory {
        Look::Directory
    } else {
        Look::Absent
    }
}

/// A look at a file.
fn look_of(file: &MemoryFile) -> Look
    ensures { result ≡ Look.File (length file.now.bytes) file.now.second }
{
    Look::File {
        len: file.bytes.len() as u64,
        second: file.second,
    }
}

/// The bytes of the file at the path; none if there is no file.
pub fn bytes_at<'a>(files: &'a [MemoryFile], path: &[u8]) -> &'a [u8]
    ensures { result.now ≡ file_bytes (files_told files.now) path.now }
{
    'files: for file in files {
        if file.path.as_slice() == path {
            return file.bytes.as_slice();
        }
    }
    &[]
}
