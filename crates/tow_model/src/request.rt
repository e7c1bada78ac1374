//! A request as its head says it (RFC 9112).

use crate::bytes::Bytes;
use crate::list::List;

/// The version of a request.
#[derive(Clone, Copy, Debug, PartialEq, Eq)]
pub enum Version {
    /// HTTP/1.0.
    V10,
    /// HTTP/1.1.
    V11,
}

/// How the content of a request is framed (RFC 9112, section 6).
#[derive(Clone, Copy, Debug, PartialEq, Eq)]
pub enum Framing {
    /// There is no content.
    Empty,
    /// The content has this length in bytes.
    Fixed(u64),
    Chunked,
}

/// A field of a request or a response, or a binding of a context.
#[derive(Debug, Drop)]
pub struct Field {
    pub name: Bytes,
    pub value: Bytes,
}

/// A request that was read.
#[derive(Debug, Drop)]
pub struct Request {
    pub method: Bytes,
    /// The target as it was sent.
    pub target: Bytes,
    pub version: Version,
    /// The field lines in their order, the names as they were sent.
    pub fields: List<Field>,
    /// The target's path as it was sent, not decoded.
    pub url: Bytes,
    /// The target's path, decoded and resolved.
    pub path: Bytes,
    /// The query string without its `?`, if there is one.
    pub query: Option<Bytes>,
    pub framing: Framing,
    /// Whether the client waits for leave to send content (RFC 9110, section 10.1.1).
    pub expects: bool,
    /// Whether the connection may stay open after the answer (RFC 9112, section 9.3).
    pub keep: bool,
    /// The client's IPv4 address.
    pub peer: u32,
}
