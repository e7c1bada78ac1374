//! What a limit decides, and what its history says. A limit admits so many exchanges at a time; its history is the list
//! of all entries made at it, from the first on. Definitions in `specs/`, no running code:
//!
//! - `Deed`: what an entry does at its limit, and how many may wait;
//! - `Legal`: a limit at a point of its history, and which histories are legal;
//! - `Histories`: what a history says of one connection, of one exchange and of tickets.
//!
//! `laws` states what follows from them, each law as the contract of a function that does nothing.
#![tactic(auto)]

mod entry;
mod laws;

pub use entry::Entry;
pub use laws::{
    calls_of_pieces, every_entry_counts, few_inside, granted_in_order, inside_by_leavings,
};
