//! Pages over folders in memory.

mod dates;
mod faults;
mod folders;
mod listings;
mod names;
mod paths;
