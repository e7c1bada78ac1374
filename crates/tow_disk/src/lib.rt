//! A folder on the machine's disk. What a disk has is trusted, so contracts see no files of it; it
//! counts its faults.
#![tactic(auto)]

mod disk_folder;
mod finding;
mod listing;
mod places;

pub use disk_folder::{DiskFolder, NoFolder};

#[cfg(test)]
mod tests;
