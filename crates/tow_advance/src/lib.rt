//! An exchange goes on through the program of its text, until it needs something that only its caller can give: the
//! verdict of a limit, the content of its request, a page, or a worker. The steps of a walk may be split between roles in
//! any way: none of them changes the plan of the exchange.
//!
//! - `walking`: the loop over the instructions.
//! - `steps`: what one instruction does.
//! - `need`: what an exchange that does not run needs, by the role that goes on with it.
//! - `laws`: how the plan of an exchange begins, waits and ends.
#![tactic(auto)]

pub mod laws;
mod need;
mod next;
mod steps;
#[cfg(test)]
mod tests;
mod walking;

pub use next::Next;
pub use walking::advance;
