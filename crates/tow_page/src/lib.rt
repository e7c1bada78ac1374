//! Pages: what a folder has for a record's path. `decide` looks at the path once for a file, looks
//! for the welcome files of a directory in their order, and asks for names only if a directory is
//! listed.
//!
//! - `deciding`: which pages there are for a method and a path
//! - `servable`: which paths can be looked up
//! - `file`: the page of a file, or the address of a directory
//! - `directory`: the page of a directory, and its welcome files
//! - `listing`: the names of a directory as HTML; `ordering`: their order
//! - `location`: the address of a directory; `escapes`: bytes in addresses; `html`: bytes in HTML
//! - `serving`: a file as it is found, or that the client has it; `unchanged`: whether it has
#![tactic(auto)]

mod deciding;
mod directory;
mod escapes;
mod file;
mod html;
mod listing;
mod location;
mod ordering;
mod servable;
mod serving;
#[cfg(test)]
mod tests;
mod unchanged;

pub use deciding::decide;
