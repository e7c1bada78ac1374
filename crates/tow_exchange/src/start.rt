//! The record of a request before its text begins.

ghost use Rattle.std.specs.Prelude.{◌≡◌, IfOk};
ghost use Rattle.tow_semantics.specs.Steps as model;

use std::alloc::{AllocError, Global};
use tow_model::{Bytes, Choice, List, Record, Request};

/// The record of a request, before its text begins. Takes memory for the path and the query.
pub(crate) fn start(alloc: Global, request: &Request) -> Result<Record, AllocError>
    ensures { IfOk result (λ x. x ≡ model.start request.now) }
{
    let path = Bytes::from_slice(alloc, request.path.as_slice())?;
    let query = match &request.query {
        Some(query) => Some(Bytes::from_slice(alloc, query.as_slice())?),
        None => None,
    };
    Ok(Record {
        path,
        query,
        status: 200,
        fields: List::new(alloc),
        context: List::new(alloc),
        listeners: List::new(alloc),
        choice: Choice::Undecided,
    })
}
