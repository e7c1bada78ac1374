//! The steps of a connection that is served by turns, while an exchange is open: it walks through its text, and its content is
//! gathered.
//!
//! - `walking`: the walk, and what follows where it halts.
//! - `gathering`: the content, which is read and given to the exchange.
#![tactic(auto)]

mod gathering;
mod walking;

pub use gathering::gather_on;
pub use walking::walk_on;
