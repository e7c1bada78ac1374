//! What a line can tell only of an answer.

ghost use Rattle.std.specs.Prelude.{◌≡◌};
ghost use Rattle.tow_semantics.specs.Values.{is_decided, is_of_answer};

use tow_model::{Attribute, Choice};

/// Whether the attribute is one of the answer, or of the record on the way to it. It says nothing
/// if an exchange ends before its answer was decided.
pub(crate) fn is_of_answer(attribute: &Attribute) -> bool
    ensures { result ≡ is_of_answer attribute.now }
{
    matches!(
        attribute,
        Attribute::RelativePath
            | Attribute::Query
            | Attribute::Status
            | Attribute::Sent
            | Attribute::SentOrDash
            | Attribute::ResponseField(_)
            | Attribute::Param(_)
            | Attribute::Context(_)
    )
}

/// Whether the content of the answer was decided.
pub(crate) fn is_decided(choice: &Choice) -> bool
    ensures { result ≡ is_decided choice.now }
{
    !matches!(choice, Choice::Undecided)
}
