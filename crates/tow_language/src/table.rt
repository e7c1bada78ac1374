use tow_model::{Bytes, List, Segment, Target, Template};

/// The names that a predicate's call may have.
#[derive(Clone, Copy, Debug, PartialEq, Eq)]
pub enum TestName {
    True,
    False,
    Path,
    PathPrefix,
    PathSuffix,
    PathTemplate,
    Regex,
    Method,
    Equals,
    Contains,
    Exists,
}

/// The names that a handler's call may have.
#[derive(Clone, Copy, Debug, PartialEq, Eq)]
pub enum Handler {
    Set,
    Clear,
    Rewrite,
    Redirect,
    ResponseCode,
    Header,
    AllowedMethods,
    RequestLimit,
    Resource,
    Blocking,
    AccessLog,
    Echo,
}

/// What a parameter's value has to be.
#[derive(Clone, Copy, Debug, PartialEq, Eq)]
pub enum Shape {
    /// A regular expression's text.
    Pattern,
    /// One or more texts, as they are written.
    Texts,
    /// One or more paths, each of which gets a leading `/`.
    Paths,
    /// One or more prefixes of paths, which have no `/` at their ends.
    Prefixes,
    /// A prefix of paths.
    Location,
    /// A path with names in braces.
    Match,
    /// One or more tokens of RFC 9110.
    Tokens,
    OneTemplate,
    Templates,
    /// A template, or the name of one of the two formats.
    Format,
    /// One attribute that may be written.
    Writable,
    FieldName,
    Number { low: u32, high: u32 },
    /// A number 200 to 599 other than 205.
    Status,
    Truth,
}

/// What a parameter's value stands for.
#[derive(Debug, Drop)]
pub enum Given {
    Pattern { text: Bytes, place: usize },
    Text(Bytes),
    Texts(List<Bytes>),
    Segments(List<Segment>),
    Template(Template),
    Templates(List<Template>),
    Target(Target),
    Number(u32),
    Truth(bool),
}
