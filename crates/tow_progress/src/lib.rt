//! How far a connection has come, and what is true of one that has ended. Definitions in
//! `specs/`, no running code:
//!
//! - `Progress`: what contracts see of an open connection;
//! - `Runs`: what a run owes so that an answer may be put before all has come;
//! - `OnWire`: where an open connection stands in what it is to write;
//! - `Steps`: its steps, each of which keeps that;
//! - `Whole`: when all was written;
//! - `Exchanges`: what exchanges ask of limits, and the lines and bytes that they are owed;
//! - `Ended`: what is true of a connection that has ended;
//! - `Accounts`: what an open connection has asked of limits and stored, and when it is done;
//! - `Cuts`: when one that was cut has ended as it has to;
//! - `Inside`: what its calls say of the limits that its exchanges are inside.
//!
//! `laws` states what follows from them, each law as the contract of a function that does nothing.
#![tactic(auto)]

mod laws;

pub use laws::{
    account_is_kept, account_opens, answers_settle, cut_follows, done_follows, front_follows,
    inside_is_kept, kept_front_follows, kept_whole_is_written, opening_is, texts_grow,
    whole_is_written, wire_is_kept, wire_is_texts,
};
