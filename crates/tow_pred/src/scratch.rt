//! The state of searches for patterns.

ghost use Rattle.std.specs.Prelude.{◌≡◌, ◌<◌, IfOk, IfSome, length, slice_get};
ghost use Rattle.tow_pattern.specs.Patterns.{pattern_bindings};

use crate::pattern::Pattern;
use crate::patterns::Tests;
use crate::search::Search;
use std::alloc::{AllocError, Global};
use std::marker::Model;
use tow_model::{Field, List, NoMemory};

/// The reusable state of searches: one matcher per pattern. Contracts see the patterns' texts.
#[derive(Drop)]
pub struct Scratch<'t> {
    searches: Vec<Search<'t>>,
}

impl<'t> Model for Scratch<'t> {
    ghost use Rattle.std.specs.Prelude.{List, ℕ};

    ghost Value = { List (List ℕ) };

    ghost view = { λ s. s.searches.items };
}

impl<'t> Scratch<'t> {
    /// Takes memory for each pattern, which grows while it is used for searches.
    pub fn new(alloc: Global, tests: &'t Tests) -> Result<Scratch<'t>, NoMemory>
        ensures { IfOk result (λ s. s ≡ tests.now) }
    {
        let searches = searches(alloc, tests.as_slice())?;
        Ok(Scratch { searches })
    }

    /// The groups of the first match in the value of the pattern with this number, if there is one. Takes memory for
    /// them alone.
    pub(crate) fn bindings(
        &mut self,
        alloc: Global,
        number: usize,
        value: &[u8],
    ) -> Result<Option<List<Field>>, AllocError>
        requires there { number < length self.old }
        ensures bindings { IfSome (slice_get self.old number) (λ pattern. IfOk result (λ bindings.
            bindings ≡ pattern_bindings pattern value.now)) }
        ensures same { self.new ≡ self.old }
    {
        self.searches[number].bindings(alloc, value)
    }
}

/// The search for each pattern.
fn searches<'t>(alloc: Global, patterns: &'t [Pattern]) -> Result<Vec<Search<'t>>, AllocError>
    ensures { IfOk result (λ s. s.items ≡ patterns.now) }
{
    let mut searches = Vec::new(alloc);
    for pattern in patterns {
        searches.push(pattern.search(alloc)?)?;
    }
    Ok(searches)
}
