//! The closing work of an exchange: its listeners, the one added last first, each with what it does.
#![tactic(auto)]

mod closing;
#[cfg(test)]
mod tests;
mod work;

pub use closing::Closing;
pub use work::Work;
