//! The limits over threads: `Limits`, one table of atomic words, and `Pass`, with which a connection enters and leaves.
//! Between any two steps of the table the rule of `specs/Rule.antt` holds: each limit has one history of admissions and
//! leavings, which is legal, and each of its entries stands in exactly one pass.
//!
//! - `limits`: the calls;
//! - `pass`, `view`: a pass, and what it knows;
//! - `past`: what is left of limits, with their histories;
//! - `rules`: the rule of the table, and what each kind of step tells.
#![tactic(auto)]

mod limits;
mod pass;
mod past;
pub mod rules;
#[cfg(test)]
mod tests;
pub mod view;

pub use limits::Limits;
pub use pass::Pass;
pub use past::Past;
