//! A folder of files, as the pages and the answers ask for it: a look at a path, a part of a file,
//! the names in a directory. `Folder` says what each call answers where the folder tells its files;
//! `MemoryFolder` tells them.
#![tactic(auto)]

mod answers;
mod folder;
mod looking;
mod mapping;
mod memory_file;
mod memory_folder;
mod naming;

pub use answers::{Listed, Look, Name, Part};
pub use folder::Folder;
pub use memory_file::MemoryFile;
pub use memory_folder::{FailingCalls, MemoryFolder, NoMap};

#[cfg(test)]
mod tests;
