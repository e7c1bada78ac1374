//! The machine as a host: its standard streams, its files and its clock. What these give and take is trusted, so contracts see
//! no content of them; each counts its faults, and keeps what the system said at the first one.
#![tactic(auto)]

mod clock;
mod failure;
mod log;
mod streams;
mod system;
mod text;

pub use clock::SystemClock;
pub use failure::{Failure, Task};
pub use log::SystemLog;
pub use streams::{Reading, Writing};
pub use system::SystemHost;
pub use text::FileText;

#[cfg(test)]
mod tests;
