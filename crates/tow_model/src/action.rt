//! What a statement does: a handler with its parameters, `restart` or `done`.

use crate::attribute::Template;
use crate::{Bytes, List};

/// An attribute that may be written.
#[derive(Debug, Drop)]
pub enum Target {
    /// `%R`, the path.
    RelativePath,
    /// `%q`, the query string.
    Query,
    /// `%s`, the status.
    Status,
    /// `%{o,NAME}`, a response field by its name in lower case.
    ResponseField(Bytes),
    /// `${NAME}`, a binding of the context.
    Context(Bytes),
}

/// A handler's call with its parameters, or one of the two words `restart` and `done`.
#[derive(Debug, Drop)]
pub enum Action {
    Set {
        target: Target,
        value: Template,
    },
    Clear {
        target: Target,
    },
    Rewrite(Template),
    Redirect(Template),
    /// The status, 200 to 599 other than 205.
    ResponseCode(u16),
    Header {
        /// In lower case.
        name: Bytes,
        value: Template,
        /// Whether the value takes the place of those that stand; the parameter is called `override`.
        replace: bool,
    },
    AllowedMethods(List<Bytes>),
    RequestLimit {
        /// The limit's number in the order of the text, from 0.
        number: u32,
        /// How many exchanges it admits at a time; the parameter is called `requests`.
        most: u32,
    },
    Resource {
        /// The prefix in the folder, without a `/` at its end.
        location: Bytes,
        /// Whether directories are listed; the parameter is called `allow-listing`.
        listing: bool,
    },
    Blocking,
    AccessLog {
        /// The log's number in the order of the text, from 0.
        number: u32,
        format: Template,
    },
    Echo,
    Restart,
    Done,
}
