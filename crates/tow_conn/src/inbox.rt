//! The bytes that were read and are not answered yet.

ghost use Rattle.std.specs.Prelude.{◌≡◌, ◌≤◌, ◌<◌, [], length, drop, IfOk};
ghost use Rattle.tow_link.specs.Data.{Rose};

use std::alloc::Global;
use std::marker::Model;
use tow_link::{Read, Source};
use tow_model::NoMemory;

/// The most bytes that wait to be read as a head.
pub const ROOM: usize = 65_536;

/// Bytes that were read from a source and are not taken yet, at most 65,536. Contracts see their list.
#[derive(Debug, Drop)]
pub struct Inbox {
    store: Vec<u8>,
    from: usize,
    to: usize,
}

impl Model for Inbox {
    ghost use Rattle.std.specs.Prelude.{ℕ, List, ◌≤◌, ◌-◌, ◌≡◌, length, take, drop};

    ghost Value = { List ℕ };

    ghost view = { λ b. take (b.to - b.from) (drop b.from b.store.items) };

    ghost invariant = { λ b. (b.from ≤ b.to) × (b.to ≤ 65536) × (length b.store.items ≡ 65536) };
}

impl Inbox {
    ghost use Rattle.tow_conn.specs.Inboxes.{Fills};

    /// An empty inbox. Takes all the memory that it ever needs.
    pub fn new(alloc: Global) -> Result<Inbox, NoMemory>
        ensures { IfOk result (λ inbox. inbox ≡ []) }
    {
        let store = vec![in alloc; 0; ROOM]?;
        Ok(Inbox {
            store,
            from: 0,
            to: 0,
        })
    }

    /// The bytes.
    pub fn view(&self) -> &[u8]
        ensures bytes { result.now ≡ self.now }
        ensures within { length self.now ≤ 65536 }
    {
        &self.store[self.from..self.to]
    }

    /// Drops the first bytes.
    pub fn drop_front(&mut self, count: usize)
        requires { count ≤ length self.old }
        ensures { self.new ≡ drop count self.old }
    {
        self.from += count;
        if self.from == self.to {
            self.from = 0;
            self.to = 0;
        }
    }

    /// Reads some bytes of the source behind those that are there; there is room for at least one.
    pub fn fill<S: Source>(&mut self, source: &mut S) -> Read
        requires { length self.old < 65536 }
        ensures fills { Fills (S.shows source.old).told (S.shows source.new).told result self.old
            self.new }
        ensures later { (S.shows source.old).faults ≤ (S.shows source.new).faults }
        ensures failed { result ≡ Read.Failed
            → Rose (S.shows source.old).faults (S.shows source.new).faults }
    {
        if self.to == ROOM {
            self.store.copy_within(self.from..self.to, 0);
            self.to -= self.from;
            self.from = 0;
        }
        match source.read(&mut self.store[self.to..ROOM]) {
            Read::Got(count) => {
                self.to += count;
                Read::Got(count)
            }
            Read::End => Read::End,
            Read::Failed => Read::Failed,
        }
    }
}
