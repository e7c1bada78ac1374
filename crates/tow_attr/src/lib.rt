//! Templates: texts in which attributes, as `%R` or `%{i,host}`, stand for values of an exchange. `read_template` goes
//! over a text once and answers its pieces, or the byte at which it holds no attribute; the laws say in the table's own
//! words which texts spell which pieces. `value` answers what a template stands for.
//!
//! - `template`, `draft`, `piece`, `attribute`, `fault`, `laws`: reading a template
//! - `values`, `append`: the value of a template, and of each attribute
//! - `binding`, `parameters`, `cookies`, `fields`, `content`, `moment`, `digits`: where the values are found and how they are
//!   written
#![tactic(auto)]

mod append;
mod attribute;
mod binding;
mod content;
mod cookies;
mod digits;
mod draft;
mod fault;
mod fields;
pub mod laws;
mod moment;
mod parameters;
mod piece;
mod template;
#[cfg(test)]
mod tests;
#[cfg(test)]
mod value_tests;
mod values;

pub use append::append_attribute;
pub use fault::TemplateFault;
pub use template::read_template;
pub use tow_model::{Attribute, Piece, Template};
pub use values::value;
