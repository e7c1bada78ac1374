//! What a request's target names (RFC 9112, section 3.2), paths without dot segments (RFC 3986, section 5.2.4), prefixes
//! of paths, and path templates. `target` reads a target into its url, its path and its query, `resolving` takes the dot
//! segments out of a path, `prefix` tells whether a path lies under another, and `template` binds the segments of a text.
#![tactic(auto)]

mod prefix;
mod resolving;
mod scheme;
mod target;
mod template;
#[cfg(test)]
mod tests;

pub use prefix::is_prefix;
pub use resolving::resolve;
pub use target::{Target3986, has_form, read_target};
pub use template::{Bind, template_bind};
pub use tow_model::{Bytes, Field, List, NoMemory, Segment};
