//! The folders of a host in memory.

ghost use Rattle.std.specs.Prelude.{◌≡◌, IfOk, Some, map, option_map, option_copied};
ghost use Rattle.tow_folder.specs.Memory.{files_told};
ghost use Rattle.tow_host.specs.Maps.{if_map, map_named};
ghost use Rattle.tow_host.specs.Memory.{folder_told, fresh_folder};

use std::alloc::{AllocError, Global};
use std::marker::Model;
use tow_folder::{FailingCalls, Folder, MemoryFile, MemoryFolder};
use tow_model::Bytes;

/// A folder under a name.
#[derive(Drop)]
pub struct NamedFolder {
    pub name: String,
    /// Its files. Where they are not the map of a folder, there is no folder of this name.
    pub files: Vec<MemoryFile>,
    /// Which calls fail, of each folder of this name by itself.
    pub failing: FailingCalls,
}

/// Folders by name; the first of a name counts.
#[derive(Drop)]
pub struct MemoryFolders {
    folders: Vec<NamedFolder>,
}

impl Model for MemoryFolders {
    ghost use Rattle.std.specs.Prelude.{List, ℕ, map};
    ghost use Rattle.tow_semantics.specs.Files.{Files};
    ghost use Rattle.tow_host.specs.Memory.{folder_told};

    ghost Value = { List (List ℕ × Files) };

    ghost view = { λ folders. map folder_told folders.folders.items };
}

impl MemoryFolders {
    /// Of these folders.
    pub fn new(folders: Vec<NamedFolder>) -> Self
        ensures { result ≡ map folder_told folders.items }
    {
        MemoryFolders { folders }
    }

    /// A new folder of this name, if there is one. Takes memory for a copy of its files.
    pub fn open(&self, name: &str) -> Result<Option<MemoryFolder>, AllocError>
        ensures { IfOk result (λ folder. option_map ⟦<MemoryFolder as Folder>⟧.shows folder
            ≡ option_map fresh_folder (if_map (map_named self.now name.now))) }
    {
        match folder_in(&self.folders, name) {
            Some(folder) => opened(*self.folders.allocator(), folder),
            None => Ok(None),
        }
    }
}

/// What was given for the folder of this name, the first of it.
fn folder_in<'a>(folders: &'a [NamedFolder], name: &str) -> Option<&'a NamedFolder>
    ensures { option_map (λ folder. files_told folder.files.items) (option_copied result)
        ≡ map_named (map folder_told folders.now) name.now }
{
    'folders: for folder in folders {
        if folder.name.as_str() == name {
            return Some(folder);
        }
    }
    None
}

/// A new folder of the same files and failing calls, if the files are the map of a folder.
fn opened(alloc: Global, folder: &NamedFolder) -> Result<Option<MemoryFolder>, AllocError>
    ensures { IfOk result (λ made. option_map ⟦<MemoryFolder as Folder>⟧.shows made
        ≡ option_map fresh_folder (if_map (Some (files_told folder.now.files.items)))) }
{
    let files = copied(alloc, &folder.files)?;
    let failing = FailingCalls {
        look: folder.failing.look.clone()?,
        read_at: folder.failing.read_at.clone()?,
        names: folder.failing.names.clone()?,
    };
    Ok(MemoryFolder::new(alloc, files, failing).ok())
}

/// A copy of these files.
fn copied(alloc: Global, files: &[MemoryFile]) -> Result<Vec<MemoryFile>, AllocError>
    ensures { IfOk result (λ copy. files_told copy.items ≡ files_told files.now) }
{
    let mut copy = Vec::new(alloc);
    'files: for file in files {
        copy.push(MemoryFile {
            path: Bytes::from_slice(alloc, file.path.as_slice())?,
            second: file.second,
            bytes: Bytes::from_slice(alloc, file.bytes.as_slice())?,
        })?;
    }
    Ok(copy)
}
