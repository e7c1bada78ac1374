//! What a handlers text is: its tokens, its grammar, what a call stands for by the tables, the first fault of a text that
//! has no tree, and the printed form of a tree. The definitions stand in specs/, and their laws in `laws`.
#![tactic(auto)]

pub mod kind;
pub mod laws;
pub mod signatures;
pub mod table;
pub mod token;

pub use kind::Kind;
pub use signatures::{HANDLERS, PREDICATES, Parameter, Signature, Standard};
pub use table::{Given, Handler, Shape, TestName};
pub use token::{Token, TokenKind};
