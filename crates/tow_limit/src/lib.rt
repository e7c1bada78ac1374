//! A limit on how many exchanges are inside at a time, on one thread: `Count`. Its contract is said over every history
//! that a count shows, as `tow_history` defines histories: the count keeps it legal, and each verdict is exact.
#![tactic(auto)]

mod count;
#[cfg(test)]
mod tests;

pub use count::Count;
