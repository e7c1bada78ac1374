//! What a person is told of a handlers text that has a fault: the line of the text with a caret
//! under the column, a sentence on what is wrong there, and how it is mended. `explain` tells of a
//! fault. What looks round a place of a text without one (`Script`, `surroundings`) is public too.
//!
//! - `line`, `cut`, `cell`, `drawing`: a line of the text, what of it is shown, and what stands
//!   under it
//! - `cause`: all that can be wrong, with its sentences; `form`: what a call takes; `page`: all of
//!   it as a person reads it
//! - `script`, `open`: the tokens of the text, and what is open at one of them
//! - `comment`: what was to be a comment
//! - `stray`, `unexpected`, `unknown`, `spot`, `parameter`, `attribute`, `pattern`: what is wrong,
//!   by the kind of the fault
//! - `diagnose`, `diagnosis`, `explaining`: the way from a kind and a place to the page
#![tactic(auto)]

mod attribute;
mod cause;
mod cell;
mod comment;
mod cut;
mod diagnose;
mod diagnosis;
mod drawing;
mod explaining;
mod form;
mod line;
mod open;
mod page;
mod parameter;
mod pattern;
mod script;
mod spot;
mod stray;
#[cfg(test)]
mod tests;
mod unexpected;
mod unknown;

pub use attribute::spelled;
pub use drawing::{Row, put_row};
pub use explaining::explain;
pub use line::position;
pub use open::{Within, surroundings, take_token};
pub use parameter::{shape_at, signature_of};
pub use script::{Script, closes, opens, part};
pub use unexpected::{is_named, is_parameter_name};
