//! Laws of the definitions, each the contract of a function without a body.

ghost use Rattle.tow_sink.specs.Whole.{FramesWhole};

/// A `Buffered` around a `Chunked` around a `Plain` makes just an answer's chunks of its bytes,
/// however they were cut.
pub fn frames_whole()
    ensures { FramesWhole }
{}
