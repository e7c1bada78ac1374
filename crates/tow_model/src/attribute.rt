//! Templates: texts with attributes of an exchange in them.

use crate::{Bytes, List};

/// A value of an exchange that a template names. Each can be written in a text as its line says.
#[derive(Debug, Drop)]
pub enum Attribute {
    /// `%m`.
    Method,
    /// `%U`: the path as it was sent.
    RequestUrl,
    /// `%R`: the path that handlers see and may write.
    RelativePath,
    /// `%q`.
    Query,
    /// `%s`.
    Status,
    /// `%r`: the first line of the request.
    RequestLine,
    /// `%H`.
    Protocol,
    /// `%a`.
    RemoteIp,
    /// `%h`.
    RemoteHost,
    /// `%l`, which is always `-`.
    Ident,
    /// `%u`, which is always `-`.
    User,
    /// `%t`: the moment of the request in the form of an access log.
    Moment,
    /// `%B`: the bytes of the answer's body.
    Sent,
    /// `%b`: the bytes of the answer's body, or `-` for none.
    SentOrDash,
    /// `%{i,NAME}`.
    RequestField(Bytes),
    /// `%{o,NAME}`.
    ResponseField(Bytes),
    /// `%{q,NAME}`: a parameter of the query.
    Param(Bytes),
    /// `%{c,NAME}`.
    Cookie(Bytes),
    /// `${NAME}`: a binding of the context.
    Context(Bytes),
}

/// A part of a template.
#[derive(Debug, Drop)]
pub enum Piece {
    Literal(Bytes),
    Value(Attribute),
}

/// A text in which attributes stand for values.
pub type Template = List<Piece>;
