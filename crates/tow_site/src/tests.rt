//! Texts with their faults, and what texts come to for a request.

mod advancing;
mod compiled;
mod formats;
mod limits;
mod outcomes;
mod rows;

use crate::{Site, compile};
use std::alloc::{AllocError, Global};
use std::test::Fail;
use tow_link::PackMaker;
use tow_model::{Bytes, Framing, List, Request, Version};

/// The site of a text without a fault.
fn site(alloc: Global, text: &[u8]) -> Result<Site, Fail> {
    match compile(alloc, text, &mut PackMaker::new()) {
        Ok(site) => Ok(site),
        Err(_fault) => Err("no site".into()),
    }
}

/// A request of which the text sees the method and the path.
fn request(alloc: Global, method: &[u8], path: &[u8]) -> Result<Request, AllocError> {
    let method = Bytes::from_slice(alloc, method)?;
    let path = Bytes::from_slice(alloc, path)?;
    Ok(Request {
        method,
        target: Bytes::from_vec(Vec::new(alloc)),
        version: Version::V11,
        fields: List::new(alloc),
        url: Bytes::from_vec(Vec::new(alloc)),
        path,
        query: None,
        framing: Framing::Empty,
        expects: false,
        keep: true,
        peer: 0,
    })
}
