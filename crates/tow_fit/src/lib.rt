//! Finds what each call of a handlers text stands for by the tables of predicates and handlers, or why it stands for nothing.
//! `fitted_test` takes the call of a predicate and `fitted_action` that of a handler; both count the limits, the access logs
//! and the patterns that came before.
//!
//! - `call`: a call as it is written. `counts`: what was numbered so far. `fault`: why tokens are no tree.
//! - `fitting` goes from a call to what it stands for: its name (`names`), the rows of its table (`table`), its parameters in
//!   order (`parameters`, `unnamed`, `givens`), the shape of each (`values` with `texts`, `numbers`, `fields`, `paths`,
//!   `segments` and `templates`), and what is made of them (`made`, `acted`).
#![tactic(auto)]

mod call;
mod counts;
mod fault;
mod fitting;

pub use call::{Call, WrittenPair, WrittenParameters, WrittenText, WrittenValue};
pub use counts::Counts;
pub use fault::ParseFault;
pub use fitting::{fitted_action, fitted_test};
