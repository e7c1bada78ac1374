//! The names in a directory.

ghost use Rattle.std.specs.Prelude.{◌≡◌, ◌≤◌, IfOk, IfSome, OnOk, length, map};
ghost use Rattle.tow_semantics.specs.Files as semantics;
ghost use Rattle.tow_folder.specs.Folders.{directory_of, name_shown};
ghost use Rattle.tow_folder.specs.Memory as memory;
ghost use Rattle.tow_folder.specs.Memory.{child_named, files_told};

use crate::mapping::below;
use crate::{MemoryFile, Name};
use std::alloc::{AllocError, Global};
use std::cmp::Ordering;
use tow_model::{Bytes, List};
use tow_text::cut;

/// The direct children of the directory at the path, each once, in byte order. It goes over the
/// files once. Takes memory.
pub fn names_in(alloc: Global, files: &[MemoryFile], path: &[u8]) -> Result<List<Name>, AllocError>
    ensures { IfOk result (λ names. map name_shown names
        ≡ semantics.names_in (files_told files.now) (directory_of path.now)) }
{
    let mut names = Vec::new(alloc);
    'files: for file in files.iter().rev() {
        if let Some(rest) = below(path, file.path.as_slice()) {
            add_name(&mut names, rest)?;
        }
    }
    Ok(List::from_vec(names))
}

/// Adds the name that stands first in what is behind a directory, unless it stands there already.
/// It is a directory itself if a `/` follows it. Takes memory.
fn add_name(names: &mut Vec<Name>, rest: &[u8]) -> Result<(), AllocError>
    ensures { OnOk result (map name_shown names.new.items
        ≡ semantics.with_name (child_named rest.now) (map name_shown names.old.items)) }
{
    let (text, behind) = cut(b'/', rest);
    if let Some(place) = place_for(names, text) {
        let text = Bytes::from_slice(*names.allocator(), text)?;
        let directory = behind.is_some();
        names.insert(place, Name { text, directory })?;
    }
    Ok(())
}

/// Where a name of this text goes among names in byte order; nowhere if it stands there already.
fn place_for(names: &[Name], text: &[u8]) -> Option<usize>
    ensures place { result ≡ memory.place_for text.now (map name_shown names.now) }
    ensures within { IfSome result (λ place. place ≤ length names.now) }
{
    'names: for (place, name) in names.iter().enumerate() {
        match text.cmp(name.text.as_slice()) {
            Ordering::Less => return Some(place),
            Ordering::Equal => return None,
            Ordering::Greater => {}
        }
    }
    Some(names.len())
}
