//! The texts of a host in memory.

ghost use Rattle.std.specs.Prelude.{◌≡◌, IfOk, map, option_map, option_copied};
ghost use Rattle.tow_link.specs.Data.{fresh_source};
ghost use Rattle.tow_host.specs.Texts.{text_named};
ghost use Rattle.tow_host.specs.Memory.{source_bytes, text_told};

use std::alloc::AllocError;
use std::marker::Model;
use tow_link::MemorySource;

/// A text under a name.
#[derive(Drop)]
pub struct NamedText {
    pub name: String,
    /// Its bytes, the pieces in which they come, and which reads of it fail.
    pub source: MemorySource,
}

/// Texts by name; the first of a name counts.
#[derive(Drop)]
pub struct MemoryTexts {
    texts: Vec<NamedText>,
}

impl Model for MemoryTexts {
    ghost use Rattle.std.specs.Prelude.{List, ℕ, map};
    ghost use Rattle.tow_host.specs.Memory.{text_told};

    ghost Value = { List (List ℕ × List ℕ) };

    ghost view = { λ texts. map text_told texts.texts.items };
}

impl MemoryTexts {
    /// Of these texts.
    pub fn new(texts: Vec<NamedText>) -> Self
        ensures { result ≡ map text_told texts.items }
    {
        MemoryTexts { texts }
    }

    /// A fresh source of the text of this name, if there is one. Takes memory for it.
    pub fn open(&self, name: &str) -> Result<Option<MemorySource>, AllocError>
        ensures { IfOk result (λ source. source
            ≡ option_map fresh_source (text_named self.now name.now)) }
    {
        match source_in(&self.texts, name) {
            Some(source) => Ok(Some(source.restarted()?)),
            None => Ok(None),
        }
    }
}

/// What was given for the text of this name, the first of it.
fn source_in<'a>(texts: &'a [NamedText], name: &str) -> Option<&'a MemorySource>
    ensures { option_map source_bytes (option_copied result)
        ≡ text_named (map text_told texts.now) name.now }
{
    'texts: for text in texts {
        if text.name.as_str() == name {
            return Some(&text.source);
        }
    }
    None
}
