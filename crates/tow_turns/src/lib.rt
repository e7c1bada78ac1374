//! The steps of a connection that is served by turns: what it does in each stage.
//!
//! - `stage`: how far it has come; `base`: what it has beside that.
//! - `refusing`, `asking`, `answering`, `dropping`, `closing`: what it does in each stage.
//! - `deciding`: from an exchange to its answer, or to its closing work; `cutting`: the connection is cut.
//! - `turn`: what a turn ends with; `role`: whose turn it is.
#![tactic(auto)]

mod answering;
mod asking;
mod base;
mod closing;
mod cutting;
mod deciding;
mod dropping;
mod refusing;
mod role;
mod stage;
mod turn;

pub use answering::answer_on;
pub use asking::{ask, invite};
pub use base::Base;
pub use closing::close_on;
pub use cutting::cut;
pub use deciding::{answer, ended_after, work_of};
pub use refusing::refuse_on;
pub use role::is_loop;
pub use stage::{Answering, Asking, Completing, Refusal, Stage, Then};
pub use turn::Turn;
