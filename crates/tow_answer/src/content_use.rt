//! What became of the content of a request.

ghost use Rattle.std.specs.Prelude.{◌≡◌, ◌&&◌, Option};
ghost use Rattle.tow_model.specs.declared.content.Content.{Content};
ghost use Rattle.tow_semantics.specs.Runs.{Ending};
ghost use Rattle.tow_wire.specs.Answers.{is_refused};

/// What became of the content of a request, as far as its answer has to know it.
#[derive(Clone, Copy, Debug, PartialEq, Eq)]
pub enum ContentUse {
    /// The exchange did not ask for it.
    Unasked,
    /// The exchange asked for it and it was not refused: it came whole, or the answer is decided before its end.
    Served,
    /// The exchange asked for it, and it was bad or too long.
    Refused,
}

impl ContentUse {
    ghost use Rattle.tow_answer.specs.Uses.{IsUsed};

    /// Whether the exchange asked for the content.
    pub(crate) fn is_asked(self) -> bool
        ensures { (content : Option Content) (o : Ending) → IsUsed self content o
            → result ≡ o.asked }
    {
        !matches!(self, ContentUse::Unasked)
    }

    /// Whether the exchange asked for the content and it was bad or too long.
    pub(crate) fn is_refused(self) -> bool
        ensures { (content : Option Content) (o : Ending) → IsUsed self content o
            → result ≡ (o.asked && is_refused content) }
    {
        matches!(self, ContentUse::Refused)
    }
}
