//! Laws of the definitions, each the contract of a function without a body.

ghost use Rattle.tow_message.specs.Contents.{ContentIsOne};
ghost use Rattle.tow_message.specs.FirstHead.{FindsHead};
ghost use Rattle.tow_message.specs.Heads.{HeadIsOne};
ghost use Rattle.tow_message.specs.Stream.{StreamIsOne, StreamIsThere};

use tow_model::Framing;

/// An input begins with one head at most, so no head is a proper prefix of another.
pub fn head_is_one(input: &[u8])
    ensures { HeadIsOne input.now }
{}

/// The function finds just the heads of httparse's grammar that are within the bounds.
pub fn head_is_found(input: &[u8])
    ensures { FindsHead input.now }
{}

/// An input begins with one content of a framing at most.
pub fn content_is_one(framing: Framing, input: &[u8])
    ensures { ContentIsOne framing input.now }
{}

/// An input is read as one stream at most.
pub fn stream_is_one(peer: u32, input: &[u8])
    ensures { StreamIsOne peer input.now }
{}

/// There is no input that is read as no stream.
pub fn stream_is_there(peer: u32, input: &[u8])
    ensures { StreamIsThere peer input.now }
{}
