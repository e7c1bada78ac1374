//! What is printed for a fault, in whole.

mod faults;
mod parameters;
mod seconds;
mod spellings;
mod telling;
mod tokens;
