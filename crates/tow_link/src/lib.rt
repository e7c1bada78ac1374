//! The byte streams at the edge of the server: sources that are read, sinks that are written, and forms of both
//! that stand in memory. Each counts its faults and, where it can tell, shows contracts what was read, what is left
//! and what was written, so that a promise of the layers above is about these bytes. Beside them, makers of patterns, which
//! count what they refuse as too large.
#![tactic(auto)]

mod call_numbers;
mod joined;
mod key_counts;
mod maker;
mod memory_maker;
mod memory_sink;
mod memory_source;
mod pack_maker;
mod reading;
mod sink;
mod source;
mod writing;

pub use call_numbers::CallNumbers;
pub use joined::Joined;
pub use key_counts::KeyCounts;
pub use maker::{Made, Maker};
pub use memory_maker::MemoryMaker;
pub use memory_sink::MemorySink;
pub use memory_source::MemorySource;
pub use pack_maker::PackMaker;
pub use reading::{Whole, read_whole};
pub use sink::{Sink, Write};
pub use source::{Read, Source};
pub use writing::{Failed, write_all};

#[cfg(test)]
mod tests;
