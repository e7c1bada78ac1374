//! Whether some files are the map of a folder, and which of them lie in a directory.

ghost use Rattle.std.specs.Prelude.{◌≡◌, ◌++◌, ◌&&◌, codes, not, option_copied};
ghost use Rattle.std.specs.List.{list_all};
ghost use Rattle.tow_model.specs.Paths.{slash};
ghost use Rattle.tow_model.specs.Texts.{cut_at, is_empty};
ghost use Rattle.tow_semantics.specs.Files as semantics;
ghost use Rattle.tow_folder.specs.Folders.{directory_of};
ghost use Rattle.tow_folder.specs.Memory as memory;
ghost use Rattle.tow_folder.specs.Memory.{files_told};

use crate::MemoryFile;

/// Whether the files are the map of a folder: each path begins with `/` and has no empty segment
/// behind that, no two are the same, and none lies below another. Takes no memory.
pub fn is_map(files: &[MemoryFile]) -> bool
    ensures { result ≡ semantics.is_map (files_told files.now) }
{
    'files: for (place, file) in files.iter().enumerate() {
        if !may_stand(file, &files[place + 1..]) {
            return false;
        }
    }
    true
}

/// Whether the file may stand beside these others: by its path, which no other has, and none lies
/// below another.
fn may_stand(file: &MemoryFile, others: &[MemoryFile]) -> bool
    ensures { result ≡ (semantics.is_name file.now.path
        && list_all (λ g. semantics.are_apart file.now.path g.path) (files_told others.now)) }
{
    is_name(file.path.as_slice()) && is_apart(file.path.as_slice(), others)
}

/// Whether a path may be that of a file.
fn is_name(path: &[u8]) -> bool
    ensures { result ≡ semantics.is_name path.now }
{
    match path.strip_prefix(b"/") {
        Some(rest) => has_whole_segments(rest),
        None => false,
    }
}

/// Whether no piece between slashes is empty.
fn has_whole_segments(text: &[u8]) -> bool
    ensures { result ≡ list_all (λ s. not (is_empty s)) (cut_at slash text.now) }
{
    text.split(|b| *b == b'/')
        .all(|segment| !segment.is_empty())
}

/// Whether no other file has this path, lies below it or has it below itself.
fn is_apart(path: &[u8], others: &[MemoryFile]) -> bool
    ensures { result ≡ list_all (λ g. semantics.are_apart path.now g.path) others.now }
{
    others
        .iter()
        .all(|other| are_apart(path, other.path.as_slice()))
}

/// Whether these are two paths, neither of which lies below the other.
fn are_apart(one: &[u8], other: &[u8]) -> bool
    ensures { result ≡ semantics.are_apart one.now other.now }
{
    one != other && behind(one, other).is_none() && behind(other, one).is_none()
}

/// What stands in the name behind the directory at the path, if it lies there: behind the path and
/// a `/`, or behind the `/` of the root.
pub fn below<'a>(path: &[u8], name: &'a [u8]) -> Option<&'a [u8]>
    ensures { option_copied result ≡ memory.behind (directory_of path.now) name.now }
{
    if path == b"/".as_slice() {
        return name.strip_prefix(b"/");
    }
    behind(path, name)
}

/// What stands in the name behind the path and a `/`, if it begins with these.
fn behind<'a>(path: &[u8], name: &'a [u8]) -> Option<&'a [u8]>
    ensures { option_copied result ≡ memory.behind (path.now ++ codes "/") name.now }
{
    name.strip_prefix(path)?.strip_prefix(b"/")
}
