/// What a call of a source has found.
#[derive(Clone, Copy, Debug, PartialEq, Eq)]
pub enum Body {
    /// The next bytes of the content, at least one, are given.
    Got(usize),
    /// All that came is taken, and the content goes on.
    NotYet,
    /// The whole content was given before.
    End,
    /// No continuation of what came is content.
    Bad,
    /// The content is longer than 1,048,576 bytes.
    TooLong,
}

/// What a call of a drain has found.
#[derive(Clone, Copy, Debug, PartialEq, Eq)]
pub enum Drained {
    /// The whole content was dropped.
    Whole,
    /// All that came is dropped, and the content goes on.
    NotYet,
    /// No continuation of what came is content.
    Bad,
    /// The content is longer than 1,048,576 bytes.
    TooLong,
}
