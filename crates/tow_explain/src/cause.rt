//! What is wrong at a place of a text, each with the sentence that says so and the one that says
//! how it is mended.

ghost use Rattle.std.specs.Prelude.{◌≡◌};
ghost use Rattle.tow_explain.specs.Causes.{kind_of, mend_of, wrong_of};

use tow_language::Kind;

/// What is wrong at a place of a text.
#[derive(Clone, Copy, Debug, PartialEq, Eq)]
pub enum Cause {
    /// The text goes on past its limit.
    TooLong,
    /// A quote is opened, and not closed.
    UnclosedQuote,
    /// A quote in what was to be a comment.
    CommentQuote,
    /// A brace of a word is opened, and not closed.
    UnclosedBrace,
    /// No sequence of UTF-8 begins.
    NotUtf8,
    /// A byte order mark begins the text.
    ByteOrderMark,
    /// A character outside ASCII, and outside quotes.
    NotAscii,
    /// A character outside ASCII in what was to be a comment.
    CommentCharacter,
    /// A control byte outside quotes.
    ControlByte,
    /// What was to be a comment.
    Comment,
    /// An `if`.
    NoIf,
    /// `=>` for an arrow.
    FatArrow,
    /// A line end in the midst of a statement.
    EarlyLineEnd,
    /// What goes on with a statement that a line end has ended.
    AfterLineEnd,
    /// Something is left open.
    LeftOpen,
    /// A closing bracket without an opening one.
    ClosesNothing,
    /// An `else` without a predicate's statement.
    LoneElse,
    /// No target.
    WantsTarget,
    /// No predicate.
    WantsPredicate,
    /// No statement.
    WantsStatement,
    /// What may not follow a call.
    AfterCall,
    /// What may not follow a statement.
    AfterStatement,
    /// Brackets after `restart` or `done`.
    NoBrackets,
    /// Values with names and without.
    Mixed,
    /// No value.
    WantsValue,
    /// What may not follow a value.
    AfterValue,
    /// A word after a text in quotes.
    AfterQuoted,
    /// A line that begins where a call is still open.
    StillOpen,
    /// No text of an array.
    WantsText,
    /// What may not follow a text of an array.
    AfterText,
    /// What may not follow a predicate in parentheses.
    InGroup,
    /// The 33rd level.
    TooDeep,
    /// No predicate has the name.
    UnknownPredicate,
    /// No handler has the name.
    UnknownHandler,
    /// A handler, and a predicate is wanted.
    HandlerForPredicate,
    /// A predicate, and a handler is wanted.
    PredicateForHandler,
    /// What was to begin a comment.
    CommentName,
    /// A parameter without a default is not written.
    Missing,
    /// The call has no such parameter.
    UnknownParameter,
    /// The parameter is written twice.
    GivenTwice,
    /// The call has no parameters.
    TakesNone,
    /// Several values for a parameter that takes one.
    TakesOne,
    /// Several values for a call that takes one.
    OneTooMany,
    /// An array among several values.
    ArrayAmong,
    /// An array for a parameter that takes one text.
    ArrayForText,
    /// An array of nothing.
    EmptyArray,
    /// A status that may not be set.
    BadStatus,
    /// A number that is out of bounds.
    BadNumber,
    /// Neither `true` nor `false`.
    BadTruth,
    /// A path that is no template.
    BadMatch,
    /// A method that is no token.
    BadMethod,
    /// A value that is no one attribute.
    NotOneAttribute,
    /// A value that the call does not take.
    BadValue,
    /// No attribute.
    NoAttribute,
    /// No name of a field.
    NoFieldName,
    /// An attribute that may not be written.
    NotWritable,
    /// A field that the server itself writes.
    KeptField,
    /// The 17th limit.
    TooManyLimits,
    /// No pattern.
    NoPattern,
    /// A pattern that is too large.
    LargePattern,
}

impl Cause {
    /// The kind of fault that it is.
    pub fn kind(self) -> Kind
        ensures { result ≡ kind_of self }
    {
        match self {
            Cause::TooLong => Kind::TooLong,
            Cause::UnclosedQuote | Cause::CommentQuote => Kind::UnclosedQuote,
            Cause::UnclosedBrace => Kind::UnclosedBrace,
            Cause::NotUtf8
            | Cause::ByteOrderMark
            | Cause::NotAscii
            | Cause::CommentCharacter
            | Cause::ControlByte => Kind::StrayByte,
            Cause::Comment
            | Cause::NoIf
            | Cause::FatArrow
            | Cause::EarlyLineEnd
            | Cause::AfterLineEnd
            | Cause::LeftOpen
            | Cause::ClosesNothing
            | Cause::LoneElse
            | Cause::WantsTarget
            | Cause::WantsPredicate
            | Cause::WantsStatement
            | Cause::AfterCall
            | Cause::AfterStatement
            | Cause::NoBrackets
            | Cause::Mixed
            | Cause::WantsValue
            | Cause::AfterValue
            | Cause::AfterQuoted
            | Cause::StillOpen
            | Cause::WantsText
            | Cause::AfterText
            | Cause::InGroup => Kind::Unexpected,
            Cause::TooDeep => Kind::TooDeep,
            Cause::UnknownPredicate
            | Cause::UnknownHandler
            | Cause::HandlerForPredicate
            | Cause::PredicateForHandler
            | Cause::CommentName => Kind::UnknownName,
            Cause::Missing
            | Cause::UnknownParameter
            | Cause::GivenTwice
            | Cause::TakesNone
            | Cause::TakesOne
            | Cause::OneTooMany
            | Cause::ArrayAmong
            | Cause::ArrayForText
            | Cause::EmptyArray
            | Cause::BadStatus
            | Cause::BadNumber
            | Cause::BadTruth
            | Cause::BadMatch
            | Cause::BadMethod
            | Cause::NotOneAttribute
            | Cause::BadValue => Kind::BadParameter,
            Cause::NoAttribute | Cause::NoFieldName => Kind::BadAttribute,
            Cause::NotWritable | Cause::KeptField => Kind::BadTarget,
            Cause::TooManyLimits => Kind::TooManyLimits,
            Cause::NoPattern => Kind::BadPattern,
            Cause::LargePattern => Kind::LargePattern,
        }
    }

    /// One sentence on what is wrong, to which the text that it is about may be added.
    #[tactic(auto, unfolding(crate::specs::Causes::wrong_of))]
    pub fn wrong(self) -> &'static str
        ensures { result.now ≡ wrong_of self }
    {
        match self {
            Cause::TooLong => "the text goes on past its limit of 65536 bytes",
            Cause::UnclosedQuote => "this quote is opened here and not closed",
            Cause::CommentQuote => "a text has no comments, so this quote opens a value",
            Cause::UnclosedBrace => "this brace is opened here and not closed before the line ends",
            Cause::NotUtf8 => "this byte begins no character of UTF-8",
            Cause::ByteOrderMark => "a byte order mark stands before the text",
            Cause::NotAscii => "this character may stand in quotes alone",
            Cause::CommentCharacter =>
                "a text has no comments, and this character may stand in quotes alone",
            Cause::ControlByte => "this control byte may stand in quotes alone",
            Cause::Comment => "a text has no comments",
            Cause::NoIf => "a text has no if",
            Cause::FatArrow => "an arrow is written ->",
            Cause::EarlyLineEnd => "the line ends here, and its statement goes on",
            Cause::AfterLineEnd => "the line end before this has ended its statement",
            Cause::LeftOpen => "this is opened and not closed",
            Cause::ClosesNothing => "this closes nothing that is open",
            Cause::LoneElse => "this else follows no statement with a predicate",
            Cause::WantsTarget => "a target is wanted here",
            Cause::WantsPredicate => "a predicate is wanted here",
            Cause::WantsStatement => "a statement is wanted here",
            Cause::AfterCall => "this may not follow a call",
            Cause::AfterStatement => "this may not follow a statement",
            Cause::NoBrackets => "restart and done take no parameters",
            Cause::Mixed => "values with names and without may not be mixed",
            Cause::WantsValue => "a value is wanted here",
            Cause::AfterValue => "this may not follow a value",
            Cause::AfterQuoted => "this may not follow a text in quotes",
            Cause::StillOpen => "this stands in what is opened and not closed",
            Cause::WantsText => "a text is wanted here in the array",
            Cause::AfterText => "this may not follow a text of an array",
            Cause::InGroup => "this may not follow a predicate in parentheses",
            Cause::TooDeep => "this opens level 33",
            Cause::UnknownPredicate => "no predicate has this name",
            Cause::UnknownHandler => "no handler has this name",
            Cause::HandlerForPredicate => "this is a handler, and a predicate is wanted here",
            Cause::PredicateForHandler => "this is a predicate, and a handler is wanted here",
            Cause::CommentName => "a text has no comments, so this is the name of a call",
            Cause::Missing => "this parameter is missing, and it has no default",
            Cause::UnknownParameter => "the call has no parameter of this name",
            Cause::GivenTwice => "this parameter is given twice",
            Cause::TakesNone => "the call has no parameters",
            Cause::TakesOne => "the parameter takes one value, and this is one more",
            Cause::OneTooMany => "the call takes one value, and this is one more",
            Cause::ArrayAmong => "an array stands among several values",
            Cause::ArrayForText => "the parameter takes one text, and this is an array",
            Cause::EmptyArray => "this array is empty",
            Cause::BadStatus => "this status may not be set",
            Cause::BadNumber => "this is no number within the bounds",
            Cause::BadTruth => "this is neither true nor false",
            Cause::BadMatch =>
                "a segment of this path is neither a text nor a name in braces, or a name stands twice",
            Cause::BadMethod => "this is no method, since a method is a token",
            Cause::NotOneAttribute => "this is not one attribute",
            Cause::BadValue => "the call does not take this value",
            Cause::NoAttribute => "this is no attribute",
            Cause::NoFieldName => "this is no name of a field",
            Cause::NotWritable => "this may not be written",
            Cause::KeptField => "the server writes this field itself",
            Cause::TooManyLimits => "this is the 17th request-limit",
            Cause::NoPattern => "this is no pattern of regex",
            Cause::LargePattern => "the program of this pattern is larger than 10 MiB",
        }
    }

    /// One sentence on how it is mended.
    #[tactic(auto, unfolding(crate::specs::Causes::mend_of))]
    pub fn mend(self) -> &'static str
        ensures { result.now ≡ mend_of self }
    {
        match self {
            Cause::TooLong => "leave out what is not needed: a text has at most 65536 bytes",
            Cause::UnclosedQuote =>
                "write the same quote where the value ends, or close one before it; in a value put a backslash before it",
            Cause::CommentQuote => "remove what was to be a comment",
            Cause::UnclosedBrace => "write } after the name of the attribute",
            Cause::NotUtf8 => "save the text as UTF-8",
            Cause::ByteOrderMark => "save the text as UTF-8 without a byte order mark",
            Cause::NotAscii =>
                "write plain quotes round the whole value, or a plain character in its place",
            Cause::CommentCharacter => "remove what was to be a comment",
            Cause::ControlByte => "remove it, or put the whole value in quotes",
            Cause::Comment => "remove what was to be a comment",
            Cause::NoIf => "write PREDICATE -> TARGET, and else for what is done otherwise",
            Cause::FatArrow => "write -> in place of =>",
            Cause::EarlyLineEnd => "go on with the statement on the same line",
            Cause::AfterLineEnd =>
                "write it on the line before; in ( ) a predicate may go on over lines",
            Cause::LeftOpen => "write the closing one: ) for (, ] for [, } for {",
            Cause::ClosesNothing => "remove it, or open it before",
            Cause::LoneElse => "write else directly after PREDICATE -> TARGET, once",
            Cause::WantsTarget => "write a handler, restart, done, or a block { .. }",
            Cause::WantsPredicate => "write a predicate, not and a predicate, or one in ( )",
            Cause::WantsStatement => "write a target, or PREDICATE -> TARGET",
            Cause::AfterCall => "write ->, and, or; or end the statement by a line end or ;",
            Cause::AfterStatement => "end the statement by a line end or ;",
            Cause::NoBrackets => "write the word alone",
            Cause::Mixed => "write NAME = VALUE for each value, or one value without a name",
            Cause::WantsValue => "write a word, a text in quotes, or an array { .. }",
            Cause::AfterValue =>
                "write , or close the bracket; quote a value with a space or ( ) [ ] { } , = ;",
            Cause::AfterQuoted =>
                "write , or close the bracket; if this is to be in quotes, a quote before it is not closed",
            Cause::StillOpen => "close it where the call ends, or write , before this",
            Cause::WantsText => "write a word or a text in quotes; no array stands in an array",
            Cause::AfterText => "write , or }",
            Cause::InGroup => "write and, or, or )",
            Cause::TooDeep =>
                "at most 32 blocks, parentheses, not and else are open at once: split the statement",
            Cause::UnknownPredicate =>
                "write a predicate: true, false, path, path-prefix, path-suffix, path-template, regex, method, equals, contains or exists",
            Cause::UnknownHandler =>
                "write a handler: set, clear, rewrite, redirect, response-code, header, allowed-methods, request-limit, resource, blocking, access-log or echo",
            Cause::HandlerForPredicate => "write a predicate here, and the handler after ->",
            Cause::PredicateForHandler => "write -> and a target after the predicate",
            Cause::CommentName => "remove what was to be a comment",
            Cause::Missing => "write it: NAME = VALUE",
            Cause::UnknownParameter =>
                "write one of the names below, or quote the value of which this is a part",
            Cause::GivenTwice => "write it once",
            Cause::TakesNone => "write its name alone",
            Cause::TakesOne => "write each value by name: NAME = VALUE",
            Cause::OneTooMany => "remove it; if it is a part of the value, quote the whole value",
            Cause::ArrayAmong => "write all texts in one array { .. }, or none of them",
            Cause::ArrayForText => "write one text without { }",
            Cause::EmptyArray => "write one text at least",
            Cause::BadStatus => "write a status of 200 to 599 other than 205",
            Cause::BadNumber => "write 1 to 10 digits for a number within the bounds below",
            Cause::BadTruth => "write true or false",
            Cause::BadMatch =>
                "write each segment as text without braces or as {name}, each once, and quote it",
            Cause::BadMethod =>
                "write each method by itself, in letters, digits and ! # $ % & * + - . ^ _ | ~",
            Cause::NotOneAttribute => "write one attribute and nothing else, as %R or %{o,name}",
            Cause::BadValue => "write what the list below has",
            Cause::NoAttribute =>
                "write %% for a percent sign, or an attribute: %m %U %R %q %s %r %H %a %h %l %u %t %B %b %{i,name} %{o,name} %{q,name} %{c,name} ${name}",
            Cause::NoFieldName => "write letters, digits and ! # $ % & * + - . ^ _ | ~",
            Cause::NotWritable => "what may be written: %R, %q, %s, %{o,name} and ${name}",
            Cause::KeptField => "leave it out, or write another field",
            Cause::TooManyLimits =>
                "a text has at most 16: remove one, or let several places use one block",
            Cause::NoPattern =>
                "mend it at that byte; a backslash makes a byte stand for itself; no look-around or back-reference is known",
            Cause::LargePattern => "write smaller counts in { }",
        }
    }
}
