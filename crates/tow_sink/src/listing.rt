ghost use Rattle.std.specs.Prelude.{IfOk};
ghost use Rattle.tow_sink.specs.PlainFeeding.{FeedsPlain};
ghost use Rattle.tow_sink.specs.ChunkedFeeding.{FeedsChunked};
ghost use Rattle.tow_sink.specs.BufferedFeeding.{FeedsBuffered};
ghost use Rattle.tow_sink.specs.Listings.{OpensListing};

use crate::{Buffered, Chunked, Plain};
use std::alloc::Global;
use tow_model::NoMemory;

/// A sink for a listing, before its first byte: it puts chunks of 16,384 bytes, the last one shorter,
/// however the listing is cut into writes. Takes memory for one block.
pub fn listing_sink(alloc: Global) -> Result<Buffered<Chunked<Plain>>, NoMemory>
    ensures { IfOk result (λ sink. OpensListing
        (FeedsBuffered
        (FeedsChunked (FeedsPlain sink.inner.inner) sink.inner.text sink.inner.left sink.inner.is_ended)
        sink.held sink.is_handing)) }
{
    let inner = Chunked::new(Plain::new());
    Buffered::new(alloc, inner)
}
