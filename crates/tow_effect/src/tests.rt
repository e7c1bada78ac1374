//! Actions and values written by hand, and what becomes of them.

mod calls;
mod rows;
