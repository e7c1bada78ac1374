//! The data that the server's crates speak of, and, in specs/, the small vocabulary of their definitions: texts, lists,
//! fields, paths and dates.
#![tactic(auto)]

pub mod account;
pub mod action;
pub mod answer;
pub mod attribute;
pub mod bytes;
pub mod content;
pub mod laws;
pub mod limits;
pub mod list;
pub mod no_memory;
pub mod page;
pub mod predicate;
pub mod record;
pub mod request;
pub mod statement;

pub use account::{Account, Bound, Call, End, Line, Role, Verdict, What};
pub use action::{Action, Target};
pub use answer::Answer;
pub use attribute::{Attribute, Piece, Template};
pub use bytes::Bytes;
pub use content::Content;
pub use list::List;
pub use no_memory::NoMemory;
pub use page::Page;
pub use predicate::{Predicate, Segment, Test};
pub use record::{Choice, Listener, Record};
pub use request::{Field, Framing, Request, Version};
pub use statement::{Statement, Tree};
