ghost use Rattle.std.specs.Prelude.{◌≡◌, ◌+◌, ◌-◌, ◌≤◌, ◌++◌, [], length, take, drop, min, IfOk};
ghost use Rattle.std.specs.Borrow.{sem};
ghost use Rattle.circular_buffer.specs.Buffer.{buffer};

use circular_buffer::HeapCircularBuffer;
use std::alloc::Global;
use std::marker::Model;
use tow_model::NoMemory;

/// Bytes in their order, at most `capacity` of them, in one block of memory.
#[derive(Drop)]
pub struct Pipe {
    ring: HeapCircularBuffer<u8>,
}

impl Model for Pipe {
    ghost use Rattle.std.specs.Prelude.{ℕ};
    ghost use Rattle.std.specs.Coded.{coded_ℕ};
    ghost use Rattle.circular_buffer.specs.Buffer.{Buffer, buffer_code};

    ghost Value = { Buffer ℕ };

    ghost coded = { buffer_code coded_ℕ };

    ghost view = { λ p. p.ring };
}

impl Pipe {
    ghost use Rattle.tow_pipe.specs.Pipes.{Shows};

    /// An empty pipe for so many bytes. Takes memory for all of them.
    pub fn new(alloc: Global, capacity: usize) -> Result<Pipe, NoMemory>
        ensures { IfOk result (λ p. p ≡ buffer [] capacity) }
    {
        let ring = HeapCircularBuffer::with_capacity(alloc, capacity)?;
        Ok(Pipe { ring })
    }

    /// How many bytes it holds.
    pub fn len(&self) -> usize
        ensures { result ≡ length self.now.items }
    {
        self.ring.len()
    }

    /// How many bytes fit after those that it holds.
    pub fn room(&self) -> usize
        ensures { result + length self.now.items ≡ self.now.capacity }
    {
        self.ring.capacity() - self.ring.len()
    }

    /// Appends the first bytes of `from`, as many as fit, and answers how many. Takes no memory.
    pub fn put(&mut self, from: &[u8]) -> usize
        ensures count { result ≡ min (length from.now) (self.old.capacity - length self.old.items) }
        ensures after { self.new ≡
            buffer (self.old.items ++ take result from.now) self.old.capacity }
    {
        self.ring.fill_from_slice(from)
    }

    /// Drops the first `n` bytes, which are there. Takes no memory.
    pub fn take(&mut self, n: usize)
        requires { n ≤ length self.old.items }
        ensures { self.new ≡ buffer (drop n self.old.items) self.old.capacity }
    {
        self.ring.truncate_front(self.ring.len() - n);
    }

    /// All its bytes in one slice, which stay in it. Takes no memory. Where they wrap round the end of the block they
    /// are moved together first, each at most twice.
    pub fn view(&mut self) -> &mut [u8]
        ensures value { result.now ≡ self.old.items }
        ensures* after_borrow { sem 𝓛 (Shows self.entry result) }
    {
        self.ring.make_contiguous()
    }
}
