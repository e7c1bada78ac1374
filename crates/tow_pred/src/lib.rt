//! Predicates of the handlers language, which hold exactly if the language says so, and bind what it says. `build` makes
//! the patterns of a tree, once; a `Scratch` is the state of the searches for them; and `holds` asks a predicate of a request
//! and the record of its exchange.
//!
//! - `predicates`, `conditions`: predicates, and the tests that they are made of
//! - `paths`, `values`, `templates`: the tests of each subject
//! - `finding`, `building`, `patterns`: the tests of `regex` in a tree, and their patterns built
//! - `context`: what a test that holds binds
//! - `pattern`, `search`, `scratch`: patterns that were built, and the searches for them
#![tactic(auto)]

mod building;
mod conditions;
mod context;
mod fault;
mod finding;
mod paths;
mod pattern;
mod patterns;
mod predicates;
mod scratch;
mod search;
mod templates;
#[cfg(test)]
mod tests;
mod values;

pub use building::build;
pub use conditions::passes;
pub use fault::PatternFault;
pub use patterns::Tests;
pub use predicates::holds;
pub use scratch::Scratch;
pub use tow_model::{Bytes, Field, List, NoMemory, Predicate, Record, Request, Test, Tree};
