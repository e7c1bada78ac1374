//! Prints a tree as a handlers text. `print` is the one call: it goes over the tree once and appends each outermost statement
//! and a line end.
//!
//! - `printer` has the forms: `statements`, `predicates` with their parentheses, `actions` and `tests_of` for the calls of
//!   handlers and predicates (`calls`), and what stands between their brackets (`texts`, `segments`, `templates`, `forms`). A
//!   text that would be a Word stands bare (`spelling`), each other one in quotes (`style`). A template that quotes cannot
//!   hold (`endings`) has one attribute in its long form (`long_forms`).
//! - `laws` has what is known of the printed form.
#![tactic(auto)]

pub mod laws;
mod printer;
#[cfg(test)]
mod tests;

pub use printer::print;
