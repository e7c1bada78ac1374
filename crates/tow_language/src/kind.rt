//! The kinds of faults that a handlers text can have.

ghost use Rattle.std.specs.Prelude.{◌≡◌, Some};
ghost use Rattle.tow_language.specs.Kinds.{kind_name};

use std::error::Error;
use std::fmt;

/// Why a handlers text is refused.
#[derive(Clone, Copy, Debug, PartialEq, Eq)]
pub enum Kind {
    TooLong,
    UnclosedQuote,
    UnclosedBrace,
    StrayByte,
    Unexpected,
    TooDeep,
    UnknownName,
    BadParameter,
    BadAttribute,
    BadTarget,
    TooManyLimits,
    BadPattern,
    LargePattern,
}

impl Kind {
    /// The name under which a person meets the kind.
    pub fn name(self) -> &'static str
        ensures { result.now ≡ kind_name self }
    {
        match self {
            Kind::TooLong => "TooLong",
            Kind::UnclosedQuote => "UnclosedQuote",
            Kind::UnclosedBrace => "UnclosedBrace",
            Kind::StrayByte => "StrayByte",
            Kind::Unexpected => "Unexpected",
            Kind::TooDeep => "TooDeep",
            Kind::UnknownName => "UnknownName",
            Kind::BadParameter => "BadParameter",
            Kind::BadAttribute => "BadAttribute",
            Kind::BadTarget => "BadTarget",
            Kind::TooManyLimits => "TooManyLimits",
            Kind::BadPattern => "BadPattern",
            Kind::LargePattern => "LargePattern",
        }
    }
}

impl fmt::Display for Kind {
    ghost output = { λ kind. Some (kind_name kind) };

    fn fmt<W: fmt::Write>(&self, f: &mut fmt::Formatter<W>) -> fmt::Result {
        f.write_str(self.name())
    }
}

impl Error for Kind {}
