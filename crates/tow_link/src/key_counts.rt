ghost use Rattle.std.specs.Prelude.{◌≡◌, ◌-◌, ◌^◌, ◌≤◌, ◌∷◌, ◌++◌, [], OnOk, OnErr, map, is_some};
ghost use Rattle.std.specs.Bool.{OnTrue, OnFalse};
ghost use Rattle.tow_link.specs.Entries.{entry_at};
ghost use Rattle.tow_link.specs.Counts.{count_at, entry_of, own_counts, raised_at};

use std::alloc::{AllocError, Global};
use std::marker::Model;

/// The count of one key.
#[derive(Drop)]
struct KeyCount {
    key: Vec<u8>,
    count: u64,
}

/// How often something came under each key, which is a text of bytes.
#[derive(Drop)]
pub struct KeyCounts {
    counts: Vec<KeyCount>,
}

impl Model for KeyCounts {
    ghost use Rattle.std.specs.Prelude.{ℕ, List, map};
    ghost use Rattle.tow_link.specs.Counts.{entry_of};

    ghost Value = { List (List ℕ × ℕ) };

    ghost view = { λ counts. map entry_of counts.counts.items };
}

impl KeyCounts {
    /// All counts are 0.
    pub fn new(alloc: Global) -> Self
        ensures { result ≡ [] }
    {
        KeyCounts {
            counts: Vec::new(alloc),
        }
    }

    /// The count of this key.
    pub fn at(&self, key: &[u8]) -> u64
        ensures { result ≡ count_at (own_counts self.now) key.now }
    {
        self.entry(key).unwrap_or(0)
    }

    /// The count of this key, if it has one.
    pub fn entry(&self, key: &[u8]) -> Option<u64>
        ensures { result ≡ entry_at self.now key.now }
    {
        entry_in(&self.counts, key)
    }

    /// Gives this key, which has none yet, a count of 0. Takes memory.
    pub fn begin(&mut self, key: Vec<u8>) -> Result<(), AllocError>
        ensures begun { OnOk result (self.new ≡ self.old ++ (key.items, 0) ∷ []) }
        ensures err { OnErr result (self.new ≡ self.old) }
    {
        Ok(self.counts.push(KeyCount { key, count: 0 })?)
    }

    /// Raises the count of this key by one, if it has one; a count at its last value stays. Says whether it has one.
    pub fn raise_known(&mut self, key: &[u8]) -> bool
        ensures known { result ≡ is_some (entry_at self.old key.now) }
        ensures found { OnTrue result (self.new ≡ raised_at self.old key.now) }
        ensures none { OnFalse result (self.old ++ (key.now, 1) ∷ [] ≡ raised_at self.old key.now) }
        ensures same { OnFalse result (self.new ≡ self.old) }
        ensures fits { count_at (own_counts self.old) key.now ≤ 2 ^ 64 - 1 }
    {
        raise_in(&mut self.counts, key)
    }

    /// Raises the count of this key by one; one at its last value stays. Takes memory for a key that is new.
    pub fn raise(&mut self, key: &[u8]) -> Result<(), AllocError>
        ensures raised { OnOk result (self.new ≡ raised_at self.old key.now) }
        ensures fits { count_at (own_counts self.old) key.now ≤ 2 ^ 64 - 1 }
        ensures err { OnErr result (self.new ≡ self.old) }
    {
        if !raise_in(&mut self.counts, key) {
            let key = key.to_vec(*self.counts.allocator())?;
            self.counts.push(KeyCount { key, count: 1 })?;
        }
        Ok(())
    }
}

// The count of this key, that of its first entry.
fn entry_in(counts: &[KeyCount], key: &[u8]) -> Option<u64>
    ensures { result ≡ entry_at (map entry_of counts.now) key.now }
{
    'counts: for count in counts {
        if count.key.as_slice() == key {
            return Some(count.count);
        }
    }
    None
}

// Raises the count of this key by one, if there is one.
fn raise_in(counts: &mut [KeyCount], key: &[u8]) -> bool
    ensures known { result ≡ is_some (entry_at (map entry_of counts.old) key.now) }
    ensures found { OnTrue result (map entry_of counts.new
        ≡ raised_at (map entry_of counts.old) key.now) }
    ensures none { OnFalse result (map entry_of counts.old ++ (key.now, 1) ∷ []
        ≡ raised_at (map entry_of counts.old) key.now) }
    ensures same { OnFalse result (counts.new ≡ counts.old) }
    ensures fits { count_at (own_counts (map entry_of counts.old)) key.now ≤ 2 ^ 64 - 1 }
{
    'counts: for count in counts.iter_mut() {
        if count.key.as_slice() == key {
            count.count = count.count.saturating_add(1);
            return true;
        }
    }
    false
}
