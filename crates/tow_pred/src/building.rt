//! Building the patterns of a tree.

ghost use Rattle.std.specs.Prelude as prelude;
ghost use Rattle.std.specs.Prelude.{◌≡◌, ◌≢◌, ◌≤◌, All, Err, IfOk, IfErr, ℕ, map};
ghost use Rattle.tow_pattern.specs.Patterns.{IsGoodPattern};
ghost use Rattle.tow_semantics.specs.Predicates.{AreAmong};
ghost use Rattle.tow_pred.specs.Faults.{IsFaultOf, IsPatternFault};
ghost use Rattle.tow_pred.specs.Found.{told};
ghost use Rattle.tow_pred.specs.Numbering.{AreNumbered, IsNumbered, tree_patterns};

use crate::fault::PatternFault;
use crate::finding::{Found, find_in_tree};
use crate::pattern::Pattern;
use crate::patterns::Tests;
use std::alloc::Global;
use tow_link::{Made, Maker};
use tow_model::{List, Tree};

/// Builds the pattern of a test.
fn build_one<M: Maker>(
    alloc: Global,
    found: Found<'_>,
    maker: &mut M,
) -> Result<Pattern, PatternFault>
    ensures pattern { IfOk result (λ p. p ≡ found.entry.pattern.now) }
    ensures good { IfOk result (λ _. IsGoodPattern found.entry.pattern.now) }
    ensures refused { IfErr result (IsFaultOf found.entry.number found.entry.pattern.now
        (M.larges maker.old) (M.larges maker.new)) }
    ensures later { (p : prelude.List ℕ) → M.larges maker.old p ≤ M.larges maker.new p }
    ensures only { ((n : ℕ) → result ≢ Err (PatternFault.LargePattern n))
        → M.larges maker.new ≡ M.larges maker.old }
    ensures stays { M.stays maker.old maker.new }
{
    match maker.make(alloc, found.pattern) {
        Made::Built(regex) => Ok(Pattern::of_regex(regex)),
        Made::Syntax => Err(PatternFault::BadPattern(found.number)),
        Made::Large => Err(PatternFault::LargePattern(found.number)),
        Made::NoMemory => Err(PatternFault::NoMemory),
    }
}

/// Builds the patterns of the tests, in their order. Takes memory for them.
fn build_all<M: Maker>(
    alloc: Global,
    found: &[Found<'_>],
    maker: &mut M,
) -> Result<List<Pattern>, PatternFault>
    requires numbered { AreNumbered (told found.now) }
    ensures patterns { IfOk result (λ ps. ps ≡ map (λ t. t.1) (told found.now)) }
    ensures good { IfOk result (λ ps. All IsGoodPattern ps) }
    ensures refused { IfErr result (IsPatternFault (map (λ t. t.1) (told found.now))
        (M.larges maker.old) (M.larges maker.new)) }
    ensures later { (p : prelude.List ℕ) → M.larges maker.old p ≤ M.larges maker.new p }
    ensures only { ((n : ℕ) → result ≢ Err (PatternFault.LargePattern n))
        → M.larges maker.new ≡ M.larges maker.old }
    ensures stays { M.stays maker.old maker.new }
{
    let mut patterns = List::new(alloc);
    for test in found {
        let pattern = build_one(alloc, *test, maker)?;
        patterns.push(pattern)?;
    }
    Ok(patterns)
}

/// Builds the patterns of a tree, in the order of the text. The fault is that of a pattern that is refused; those before it are
/// in the grammar, and were not refused as too large. Takes memory for the patterns, and for the time of the call for their
/// places.
pub fn build<M: Maker>(alloc: Global, tree: &Tree, maker: &mut M) -> Result<Tests, PatternFault>
    requires numbered { IsNumbered tree.now }
    ensures tests { IfOk result (λ tests. tests ≡ map (λ t. t.1) (tree_patterns tree.now)) }
    ensures among { IfOk result (AreAmong (tree_patterns tree.now)) }
    ensures good { IfOk result (λ tests. All IsGoodPattern tests) }
    ensures refused { IfErr result (IsPatternFault (map (λ t. t.1) (tree_patterns tree.now))
        (M.larges maker.old) (M.larges maker.new)) }
    ensures later { (p : prelude.List ℕ) → M.larges maker.old p ≤ M.larges maker.new p }
    ensures only { ((n : ℕ) → result ≢ Err (PatternFault.LargePattern n))
        → M.larges maker.new ≡ M.larges maker.old }
    ensures stays { M.stays maker.old maker.new }
{
    let mut found = Vec::new(alloc);
    if find_in_tree(&mut found, tree.as_slice()).is_err() {
        return Err(PatternFault::NoMemory);
    }
    let patterns = build_all(alloc, found.as_slice(), maker)?;
    Ok(Tests::of_list(patterns))
}
