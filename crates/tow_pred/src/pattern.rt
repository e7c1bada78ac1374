//! Patterns that were built.

ghost use Rattle.std.specs.Prelude.{◌≡◌, IfOk};
ghost use Rattle.regex.specs.Bytes.{regex_source, regex_config, IsReadFromSource};
ghost use Rattle.tow_pattern.specs.Patterns.{over_bytes};

use crate::search::Search;
use regex::bytes::Regex;
use std::alloc::{AllocError, Global};
use std::marker::Model;

/// A pattern that was built. Contracts see its text.
#[derive(Drop)]
pub(crate) struct Pattern {
    regex: Regex,
}

impl Model for Pattern {
    ghost use Rattle.std.specs.Prelude.{List, ℕ};
    ghost use Rattle.regex.specs.Bytes.{regex_source};
    ghost use Rattle.tow_pred.specs.Built.{IsBuilt};

    ghost Value = { List ℕ };

    ghost view = { λ p. regex_source p.regex };

    ghost invariant = { λ p. IsBuilt p.regex };
}

impl Pattern {
    ghost use Rattle.tow_pred.specs.Built.{IsBuilt};

    /// Takes no memory.
    pub(crate) fn of_regex(regex: Regex) -> Pattern
        requires { IsBuilt regex }
        ensures { result ≡ regex_source regex }
    {
        Pattern { regex }
    }

    /// What searches for this pattern.
    pub(crate) fn search(&self, alloc: Global) -> Result<Search<'_>, AllocError>
        ensures { IfOk result (λ s. s ≡ self.now) }
    {
        Search::new(alloc, &self.regex)
    }
}
