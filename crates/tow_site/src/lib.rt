//! A site: a handlers text that compiles, and what it makes of a request. `compile` gives the site or the text's first
//! fault. `advance` goes on with an exchange by the site's program. For now `outcome` also walks the tree itself, with all
//! tests, and with all actions but those that wait for something or add a listener; its default handler is that over an
//! empty folder.
#![tactic(auto)]

mod advancing;
mod built;
mod compiling;
mod default;
mod fault;
mod outcomes;
mod places;
mod refusing;
mod site;
#[cfg(test)]
mod tests;
mod walk;

pub use advancing::advance;
pub use built::is_built;
pub use compiling::compile;
pub use fault::Fault;
pub use outcomes::outcome;
pub use site::Site;
