//! What several crates do with texts and fields, each job once. A text is a list of bytes.
//!
//! - `trimming`: a text without the blanks around it.
//! - `cuts`: a text before and after a byte, and whether it is one of some texts.
//! - `roots`: a path with a leading `/`.
//! - `digits`: decimal digits and the number that they write.
//! - `fields`: fields of a head by their names, and bindings of a context.
#![tactic(auto)]

mod cuts;
mod digits;
mod fields;
mod roots;
#[cfg(test)]
mod tests;
mod trimming;

pub use cuts::{after, before, cut, is_among};
pub use digits::{are_digits, digit_value, number_up_to};
pub use fields::{
    add_field, bind, clear_field, copied_field, field_with, has_field, has_name, is_field_name,
    set_field, unbind,
};
pub use roots::{rooted, rooted_copy};
pub use trimming::trimmed;
