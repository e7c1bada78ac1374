//! The tree of a handlers text.

use crate::{Action, Predicate};
use sqlite_items::{Boxed, Items};

/// A statement of the handlers language.
#[derive(Debug, Drop)]
pub enum Statement {
    /// `test -> yes else other`.
    When {
        test: Predicate,
        yes: Boxed<Statement>,
        other: Option<Boxed<Statement>>,
    },
    Act(Action),
    /// Statements in braces.
    Block(Items<Statement>),
}

/// The statements of a text, in their order.
pub type Tree = Items<Statement>;
