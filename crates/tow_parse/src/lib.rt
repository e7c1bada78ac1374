//! Reads the tokens of a handlers text as its tree, or says where its first fault is.
//!
//! - `reader` takes the tokens once and gives the parts of the tree in the order in which they are built. Its `state` is a
//!   stack of goals (`goal`, `goals`); `step` takes one token, which `look` names, by the goal on top: `statements`,
//!   `predicates`, `calls` with the places between their brackets (`phase`, `quoted`, `written`), and `passing` where a goal
//!   ends without a token.
//! - `assembly` builds the tree of the parts, and takes from `tow_fit` what each call stands for by the tables.
//! - `parser` joins the two.
#![tactic(auto)]

mod assembly;
mod calls;
mod goal;
mod goals;
mod look;
mod parsed;
mod parser;
mod part;
mod passing;
mod phase;
mod predicates;
mod quoted;
mod reader;
mod state;
mod statements;
mod step;
mod written;

pub use parsed::Parsed;
pub use parser::parse;
pub use tow_fit::ParseFault;
