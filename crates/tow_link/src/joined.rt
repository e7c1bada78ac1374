use crate::{Sink, Source};

/// A source and a sink side by side, as the standard streams of a program are. Each is used as itself.
#[derive(Drop)]
pub struct Joined<I: Source, O: Sink> {
    pub input: I,
    pub output: O,
}
