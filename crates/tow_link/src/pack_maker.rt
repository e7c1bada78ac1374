ghost use Rattle.std.specs.Prelude.{◌≡◌, ◌≢◌, ◌≤◌, ⊤};
ghost use Rattle.tow_pattern.specs.Patterns.{IsGoodPattern};
ghost use Rattle.tow_link.specs.Data.{Rose, raised};
ghost use Rattle.tow_link.specs.Making.{IfBuilt, IsRegexOf, count_after};

use crate::{Made, Maker};
use regex::Error;
use regex::bytes::Regex;
use std::alloc::Global;
use std::marker::Model;

/// The maker that builds patterns by `regex`. One count stands for that of every pattern.
#[derive(Drop)]
pub struct PackMaker {
    larges: u64,
}

impl Model for PackMaker {
    ghost use Rattle.std.specs.Prelude.{ℕ};

    ghost Value = { ℕ };

    ghost view = { λ maker. maker.larges };
}

impl PackMaker {
    /// A maker that has refused no pattern.
    pub fn new() -> Self
        ensures { result ≡ 0 }
    {
        PackMaker { larges: 0 }
    }

    /// How many patterns it has refused as too large.
    pub fn larges(&self) -> u64
        ensures { result ≡ self.now }
    {
        self.larges
    }

    // Counts a pattern that is refused as too large; a count at its last value stays.
    fn refuse(&mut self) -> Made
        ensures large { result ≡ Made.Large }
        ensures counted { self.new ≡ raised self.old }
        ensures later { self.old ≤ self.new }
    {
        self.larges = self.larges.saturating_add(1);
        Made::Large
    }
}

impl Maker for PackMaker {
    ghost larges = { λ maker pattern. maker };

    ghost stays = { λ old new. ⊤ };

    fn make(&mut self, alloc: Global, pattern: &[u8]) -> Made
        ensures built { IfBuilt result (IsRegexOf pattern.now) }
        ensures good { IfBuilt result (λ _. IsGoodPattern pattern.now) }
        ensures syntax { result ≡ Made.Syntax → ¬ (IsGoodPattern pattern.now) }
        ensures large { result ≡ Made.Large → Rose self.old self.new }
        ensures later { self.old ≤ self.new }
        ensures only { result ≢ Made.Large → self.new ≡ self.old }
        ensures counted { self.new ≡ count_after result self.old }
    {
        let Ok(text) = str::from_utf8(pattern) else {
            return Made::Syntax;
        };
        match Regex::new(alloc, text) {
            Ok(regex) => Made::Built(regex),
            Err(Error::Syntax(_)) => Made::Syntax,
            Err(Error::CompiledTooBig) => self.refuse(),
            Err(Error::Internal) => unreachable!(),
            Err(Error::OutOfMemory) => Made::NoMemory,
        }
    }

    ghost stays_same = { λ maker. tt };

    ghost stays_on = { λ first next last one two. tt };
}
