//! Clocks, which give the moment of each request.

ghost use Rattle.std.specs.Prelude.{◌≡◌, ℕ, ◌<◌, IfSome, Option};
ghost use Rattle.tow_model.specs.declared.limits.TheConstants.{FIRST_UNDATED};

/// A clock that answers requests: the moment of one, in seconds since 1970. It never fails and takes no memory.
pub trait Clock {
    /// Where it tells: the second of each request, by its connection and its number there.
    ghost table: { Self → Option (ℕ → ℕ → ℕ) };

    /// The moment of the request `j`, from 1, of the connection `k`, from 0. It lies before the year 10000.
    fn at(&mut self, k: u32, j: u32) -> u64
        ensures small { result < FIRST_UNDATED }
        ensures told { IfSome (table self.old) (λ seconds. result ≡ seconds k j) }
        ensures same { table self.new ≡ table self.old };
}
