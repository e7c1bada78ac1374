//! A connection that is served by turns. A turn takes steps until the link, a limit or another thread is needed, and the
//! connection stands then for the next turn, whoever takes it.
//!
//! - `conn`: a connection, with what it begins and ends with.
//! - `hands`: what a thread works with.
//! - `turning`: a turn; `linking`: what it does with the link.
//! - `going`: the steps of a turn up to what is needed; `stepping`: one of them; `need`: what is needed.
//! - `limits`: a verdict comes, or the leaving of a limit is noted.
#![tactic(auto)]

mod conn;
mod going;
mod hands;
mod limits;
mod linking;
mod need;
mod stepping;
mod turning;

pub use conn::Conn;
pub use hands::Hands;
