//! Cuts a handlers text into its tokens, or says at which byte it has none. `tokens` is the one call: it looks for the
//! first place that is not UTF-8, goes over the text once, token after token, and answers the tokens in order with the
//! bytes that each takes, or the fault at the least place.
#![tactic(auto)]

mod fault;
mod gap;
mod lexer;
mod quote;
mod scan;
#[cfg(test)]
mod tests;
mod token;
mod word;

pub use fault::LexFault;
pub use lexer::{Tokens, tokens};
pub use tow_language::{Token, TokenKind};
