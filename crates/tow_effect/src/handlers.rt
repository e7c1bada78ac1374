//! The handlers, a file for each: what it does to the record of an exchange, or what it waits for.

pub(crate) mod access_log;
pub(crate) mod allowed_methods;
pub(crate) mod blocking;
pub(crate) mod clear;
pub(crate) mod echo;
pub(crate) mod header;
pub(crate) mod redirect;
pub(crate) mod request_limit;
pub(crate) mod resource;
pub(crate) mod response_code;
pub(crate) mod rewrite;
pub(crate) mod set;
