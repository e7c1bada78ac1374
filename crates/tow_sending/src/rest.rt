//! Bytes that are put block by block.

ghost use Rattle.std.specs.Prelude.{◌≡◌, ◌≤◌, length, take, drop};
ghost use Rattle.tow_model.specs.Texts.{is_empty};
ghost use Rattle.tow_model.specs.declared.limits.TheConstants.{BLOCK_LEN};

use std::marker::Model;
use tow_model::Bytes;
use tow_model::limits::BLOCK_LEN;

/// Bytes of which the first `at` are put. Contracts see those that are left. They are not copied.
#[derive(Debug, Drop)]
pub(crate) struct Rest {
    bytes: Bytes,
    at: usize,
}

impl Model for Rest {
    ghost use Rattle.std.specs.Prelude.{List, ℕ, ◌≤◌, length, drop};

    ghost Value = { List ℕ };

    ghost view = { λ r. drop r.at r.bytes };

    ghost invariant = { λ r. r.at ≤ length r.bytes };
}

impl Rest {
    /// All of the bytes. Takes no memory.
    pub(crate) fn new(bytes: Bytes) -> Rest
        ensures { result ≡ bytes }
    {
        Rest { bytes, at: 0 }
    }

    /// Whether none are left.
    pub(crate) fn is_empty(&self) -> bool
        ensures { result ≡ is_empty self.now }
    {
        self.at == self.bytes.len()
    }

    /// The next block: 16,384 bytes, or fewer at the end.
    pub(crate) fn first(&self) -> &[u8]
        ensures bytes { result.now ≡ take BLOCK_LEN self.now }
        ensures few { length result.now ≤ BLOCK_LEN }
    {
        let left: &[u8] = &self.bytes.as_slice()[self.at..];
        &left[..left.len().min(BLOCK_LEN)]
    }

    /// Goes past the next block.
    pub(crate) fn pass(&mut self)
        ensures { self.new ≡ drop BLOCK_LEN self.old }
    {
        self.at += (self.bytes.len() - self.at).min(BLOCK_LEN);
    }
}
