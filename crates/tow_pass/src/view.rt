//! What a pass knows.

ghost use Rattle.std.specs.Prelude.{ℕ, List};
ghost use Rattle.std.specs.Borrow.{ftrue};
ghost use Rattle.tow_pass.specs.Calls.{Numbered, Holder, calls_code, holder_code, kept_code};

use std::marker::Model;

/// What a pass knows. It is there for the proofs alone: no value of it is made.
pub struct View {
    /// Whose the pass is.
    pub ghost holder: { Holder } by { holder_code },
    /// The calls of its connection, in the order in which they were made.
    pub ghost calls: { List Numbered } by { calls_code },
    /// Of main's: how many passes were issued.
    pub ghost issued: { ℕ },
    /// Of main's: the number and the calls of each pass that was collected, the last one first.
    pub ghost kept: { List (ℕ × List Numbered) } by { kept_code },
}

impl Model for View {
    ghost also_owns = { λ _. ftrue };
}
