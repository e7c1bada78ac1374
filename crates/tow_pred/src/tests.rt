//! Predicates written by hand, and what they hold of and bind.

mod calls;
mod rows;
