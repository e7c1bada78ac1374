//! What may be noted on a text without a fault, each with its sentence.

ghost use Rattle.std.specs.Prelude.{◌≡◌};
ghost use Rattle.tow_notes.specs.Remarks as model;

/// Why something is surely not meant.
#[derive(Clone, Copy, Debug, PartialEq, Eq)]
pub enum Remark {
    /// A statement behind one that always stops.
    NeverReached,
    /// A name that no call of the text binds.
    UnboundName,
    /// A method with a small letter.
    SmallMethod,
    /// A method that is no token.
    NoMethod,
    /// A path with a `*`.
    StarInPath,
    /// A path with a percent escape.
    EscapeInPath,
    /// A format without an attribute.
    FormatOfText,
    /// `exists` of a value without an attribute.
    ExistsOfText,
    /// `equals` of values none of which has an attribute.
    EqualsOfTexts,
    /// `equals` of one value.
    EqualsOfOne,
    /// The decoded path in an address.
    PathInAddress,
    /// What follows a prefix of the decoded path in an address.
    RemainingInAddress,
    /// A location after which the text can end.
    WholeFolder,
    /// for now: a handler that is not built.
    Unbuilt,
}

impl Remark {
    /// One sentence on it.
    #[tactic(auto, unfolding(crate::specs::Remarks::words_of))]
    pub fn words(self) -> &'static str
        ensures { result.now ≡ model.words_of self }
    {
        match self {
            Remark::NeverReached =>
                "a statement before this one always stops, so it is never reached",
            Remark::UnboundName => "nothing in the text binds this name, so it is always empty",
            Remark::SmallMethod => "methods have capital letters, so no request has this one",
            Remark::NoMethod => "this is no method, so no request has it; write each one by itself",
            Remark::StarInPath => "no path is a pattern, and * stands for itself",
            Remark::EscapeInPath => "paths are compared decoded, so write the byte itself",
            Remark::FormatOfText => "this format has no attribute, so each line is this text",
            Remark::ExistsOfText => "this has no attribute, so it is the same for every request",
            Remark::EqualsOfTexts =>
                "no value here has an attribute, so it is the same for every request",
            Remark::EqualsOfOne => "one value is equal to itself, so this always holds",
            Remark::PathInAddress => "this is decoded, so the address may be another one; write %U",
            Remark::RemainingInAddress =>
                "this is decoded, and //host in it leads away; write a host or path before a group of a regex over %U",
            Remark::WholeFolder =>
                "what is not found there is looked for in the whole folder; write response-code(404) after it",
            Remark::Unbuilt => "this is not built yet, so ask refuses the text",
        }
    }
}
