//! An exchange is played on from where it stands until it halts: it is decided, or the verdict of a limit, its content or a
//! worker is needed. A page that it needs is looked for in the folder and given to it, by a worker alone.
//!
//! - `walking`: a walk, turn by turn.
//! - `looking`: the look for a page.
//! - `advancing`: the part of a turn that needs no folder.
//! - `halt`: what a walk halts with.
//! - `laws`: a walk stays on the course of its exchange, one that is cut short may break off, and the answer can be sent.
#![tactic(auto)]

mod advancing;
mod halt;
pub mod laws;
mod looking;
mod walking;

pub use halt::Halt;
pub use walking::walk;
