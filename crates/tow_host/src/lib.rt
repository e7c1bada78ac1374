//! What the server asks of the machine that it runs on: texts and folders by name, clocks, logs, and the streams that a
//! command reads and prints through. `Host` says what each call gives and leaves as plain data; `MemoryHost` tells all of it.
#![tactic(auto)]

mod clock;
mod host;
mod kept;
mod log_sink;
mod memory_clock;
mod memory_folders;
mod memory_host;
mod memory_log;
mod memory_texts;

pub use clock::Clock;
pub use host::{Host, HostFault};
pub use kept::{Kept, count_parts, hold_part, hold_parts};
pub use log_sink::{LogSink, Put};
pub use memory_clock::{MemoryClock, MomentAt};
pub use memory_folders::{MemoryFolders, NamedFolder};
pub use memory_host::MemoryHost;
pub use memory_log::MemoryLog;
pub use memory_texts::{MemoryTexts, NamedText};

#[cfg(test)]
mod tests;
