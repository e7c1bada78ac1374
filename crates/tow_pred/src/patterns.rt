//! The patterns of a tree.

ghost use Rattle.std.specs.Prelude.{◌≡◌};

use crate::pattern::Pattern;
use std::marker::Model;
use tow_model::List;

/// The built patterns of a tree. Contracts see the patterns' texts, in the order of the tree.
#[derive(Drop)]
pub struct Tests {
    patterns: List<Pattern>,
}

impl Model for Tests {
    ghost use Rattle.std.specs.Prelude.{List, ℕ};

    ghost Value = { List (List ℕ) };

    ghost view = { λ t. t.patterns };
}

impl Tests {
    /// Takes no memory.
    pub(crate) fn of_list(patterns: List<Pattern>) -> Tests
        ensures { result ≡ patterns }
    {
        Tests { patterns }
    }

    /// The patterns, in the order of their numbers.
    pub(crate) fn as_slice(&self) -> &[Pattern]
        ensures { result.now ≡ self.now }
    {
        self.patterns.as_slice()
    }
}
