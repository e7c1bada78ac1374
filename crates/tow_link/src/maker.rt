ghost use Rattle.std.specs.Prelude.{◌≡◌, ◌≢◌, ℕ, ◌≤◌, List};
ghost use Rattle.tow_pattern.specs.Patterns.{IsGoodPattern};
ghost use Rattle.tow_link.specs.Data.{Rose};
ghost use Rattle.tow_link.specs.Making.{IfBuilt, IsRegexOf};

use regex::bytes::Regex;
use std::alloc::Global;

/// What a maker makes of a pattern.
#[derive(Drop)]
pub enum Made {
    /// What searches for it.
    Built(Regex),
    /// It is not UTF-8, is not in the grammar of `regex`, or is nested deeper than that allows.
    Syntax,
    /// The maker refused it as too large, and counted that under the pattern.
    Large,
    NoMemory,
}

/// Builds patterns. It counts, for each pattern's text, how often it refused that as too large.
pub trait Maker {
    /// How often it has refused a pattern as too large, by the pattern's text.
    ghost larges: { Self → List ℕ → ℕ };

    /// All but these counts is as it was.
    ghost stays: { Self → Self → Type 0 };

    /// Builds the pattern, which is read as `regex` reads it over bytes. Takes memory.
    fn make(&mut self, alloc: Global, pattern: &[u8]) -> Made
        ensures built { IfBuilt result (IsRegexOf pattern.now) }
        ensures good { IfBuilt result (λ _. IsGoodPattern pattern.now) }
        ensures syntax { result ≡ Made.Syntax → ¬ (IsGoodPattern pattern.now) }
        ensures large { result ≡ Made.Large
            → Rose (larges self.old pattern.now) (larges self.new pattern.now) }
        ensures later { (p : List ℕ) → larges self.old p ≤ larges self.new p }
        ensures only { result ≢ Made.Large → larges self.new ≡ larges self.old }
        ensures stays { stays self.old self.new };

    ghost stays_same: { (maker : Self) → stays maker maker };

    ghost stays_on: { (first next last : Self) → stays first next → stays next last
        → stays first last };
}
