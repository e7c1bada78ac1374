ghost use Rattle.std.specs.Prelude.{◌≡◌, ◌==◌, IfOk};
ghost use Rattle.std.specs.List.{list_any};
ghost use Rattle.tow_link.specs.Data.{raised};

use std::alloc::AllocError;
use std::marker::Model;

/// The numbers, from 0, of some of the calls of one kind, and how many calls of that kind there were.
/// A form in memory has one such list for the calls that are to fail.
#[derive(Drop)]
pub struct CallNumbers {
    numbers: Vec<u64>,
    next: u64,
}

impl Model for CallNumbers {
    ghost use Rattle.tow_link.specs.Data.{CallNumbersData};

    ghost Value = { CallNumbersData };

    ghost view = { λ calls. record { numbers = calls.numbers.items; next = calls.next } };
}

impl CallNumbers {
    /// The list of these numbers, before the first call.
    pub fn new(numbers: Vec<u64>) -> Self
        ensures { result ≡ record { numbers = numbers.items; next = 0 } }
    {
        CallNumbers { numbers, next: 0 }
    }

    /// Counts a call, and says whether its number is in the list.
    pub fn next_is_listed(&mut self) -> bool
        ensures answer { result ≡ list_any (λ number. number == self.old.next) self.old.numbers }
        ensures counted { self.new ≡ record self.old { next = raised self.old.next } }
    {
        let call = self.next;
        self.next = call.saturating_add(1);
        self.numbers.contains(&call)
    }

    /// A list of the same numbers, before the first call. Takes memory.
    pub fn restarted(&self) -> Result<Self, AllocError>
        ensures { IfOk result (λ calls. calls ≡ record self.now { next = 0 }) }
    {
        Ok(CallNumbers::new(self.numbers.clone()?))
    }
}
