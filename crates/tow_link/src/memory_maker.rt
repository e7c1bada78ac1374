ghost use Rattle.std.specs.Prelude.{◌≡◌, ◌≢◌, ℕ, ◌≤◌, IsSome, List, ⊤};
ghost use Rattle.tow_pattern.specs.Patterns.{IsGoodPattern};
ghost use Rattle.tow_link.specs.Counts.{count_at};
ghost use Rattle.tow_link.specs.Data.{Rose};
ghost use Rattle.tow_link.specs.Entries.{entry_at};
ghost use Rattle.tow_link.specs.Making.{IfBuilt, IsRegexOf, counts_after};

use crate::{KeyCounts, Made, Maker, PackMaker};
use std::alloc::Global;
use std::marker::Model;

/// A maker that refuses the patterns of a list as too large, and hands all others to a `PackMaker`.
#[derive(Drop)]
pub struct MemoryMaker {
    larges: KeyCounts,
    pack: PackMaker,
}

impl Model for MemoryMaker {
    ghost use Rattle.tow_link.specs.Counts.{Counts};

    ghost Value = { Counts };

    ghost view = { λ maker. record { named = maker.larges; others = maker.pack } };
}

impl MemoryMaker {
    /// A maker that refuses just the patterns that have a count here.
    pub fn new(larges: KeyCounts) -> Self
        ensures { result ≡ record { named = larges; others = 0 } }
    {
        MemoryMaker {
            larges,
            pack: PackMaker::new(),
        }
    }

    /// How often it has refused this pattern as too large. One count stands for all that are not in the list.
    pub fn larges_of(&self, pattern: &[u8]) -> u64
        ensures { result ≡ count_at self.now pattern.now }
    {
        self.larges.entry(pattern).unwrap_or(self.pack.larges())
    }
}

impl Maker for MemoryMaker {
    ghost larges = { count_at };

    ghost stays = { λ old new. ⊤ };

    fn make(&mut self, alloc: Global, pattern: &[u8]) -> Made
        ensures built { IfBuilt result (IsRegexOf pattern.now) }
        ensures good { IfBuilt result (λ _. IsGoodPattern pattern.now) }
        ensures syntax { result ≡ Made.Syntax → ¬ (IsGoodPattern pattern.now) }
        ensures large { result ≡ Made.Large
            → Rose (count_at self.old pattern.now) (count_at self.new pattern.now) }
        ensures later { (p : List ℕ) → count_at self.old p ≤ count_at self.new p }
        ensures only { result ≢ Made.Large → count_at self.new ≡ count_at self.old }
        ensures listed { IsSome (entry_at self.old.named pattern.now) → result ≡ Made.Large }
        ensures counted { self.new ≡ counts_after result pattern.now self.old }
    {
        if self.larges.raise_known(pattern) {
            return Made::Large;
        }
        self.pack.make(alloc, pattern)
    }

    ghost stays_same = { λ maker. tt };

    ghost stays_on = { λ first next last one two. tt };
}
