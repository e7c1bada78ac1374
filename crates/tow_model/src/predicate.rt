//! What a statement asks of an exchange before it acts.

use crate::attribute::Template;
use crate::{Bytes, List};
use sqlite_items::Boxed;

/// A part of a path template, between two `/`.
#[derive(Debug, Drop)]
pub enum Segment {
    Fixed(Bytes),
    /// `{NAME}`, which binds the name to the segment that stands there.
    Bind(Bytes),
}

/// A predicate's call with its parameters.
#[derive(Debug, Drop)]
pub enum Test {
    True,
    False,
    Path(List<Bytes>),
    Prefix(List<Bytes>),
    Suffix(List<Bytes>),
    PathTemplate {
        parts: List<Segment>,
        value: Template,
    },
    Regex {
        /// The pattern's number in the order of the text, from 0.
        number: u32,
        pattern: Bytes,
        value: Template,
    },
    Method(List<Bytes>),
    Equals(List<Template>),
    Contains {
        value: Template,
        search: List<Bytes>,
    },
    Exists(Template),
}

/// A condition: tests joined by `not`, `and` and `or`.
#[derive(Debug, Drop)]
pub enum Predicate {
    Is(Test),
    Not(Boxed<Predicate>),
    And(Boxed<Predicate>, Boxed<Predicate>),
    Or(Boxed<Predicate>, Boxed<Predicate>),
}
