//! `resource`: looks for a page in the folder.

ghost use Rattle.std.specs.Prelude.{◌≡◌, ◌≢◌};

use crate::outcome::Effect;
use std::alloc::Global;
use tow_model::Bytes;

/// Waits for the page after the location. Takes memory for a copy of that.
pub(crate) fn resource(alloc: Global, location: &[u8], listing: bool) -> Effect
    ensures { result ≢ Effect.NoMemory → result ≡ Effect.Page location.now listing }
{
    match Bytes::from_slice(alloc, location) {
        Ok(location) => Effect::Page { location, listing },
        Err(_) => Effect::NoMemory,
    }
}
