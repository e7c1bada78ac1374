//! A clock in memory.

ghost use Rattle.std.specs.Prelude.{◌≡◌, ℕ, ◌<◌, [], IsTrue, nat_lt};
ghost use Rattle.std.specs.List.{list_all};
ghost use Rattle.tow_host.specs.Moments.{second_of};
ghost use Rattle.tow_model.specs.declared.limits.TheConstants.{FIRST_UNDATED};

use crate::Clock;
use std::marker::Model;

/// The moment of one request: of its number `j`, from 1, in the connection `k`, from 0.
#[derive(Clone, Copy, Debug, PartialEq, Eq)]
pub struct MomentAt {
    pub k: u32,
    pub j: u32,
    /// In seconds since 1970.
    pub second: u64,
}

/// A clock that tells one second for each of some requests, and one second for all others.
#[derive(Drop)]
pub struct MemoryClock {
    moments: &'static [MomentAt],
    others: u64,
}

impl Model for MemoryClock {
    ghost use Rattle.std.specs.Prelude.{◌<◌, IsTrue, nat_lt};
    ghost use Rattle.std.specs.List.{list_all};
    ghost use Rattle.tow_host.specs.Moments.{MomentsData};
    ghost use Rattle.tow_model.specs.declared.limits.TheConstants.{FIRST_UNDATED};

    ghost Value = { MomentsData };

    ghost view = { λ clock. record { moments = clock.moments.now; others = clock.others } };

    ghost invariant = { λ clock. IsTrue
        (list_all (λ moment. nat_lt moment.second FIRST_UNDATED) clock.moments.now)
        × (clock.others < FIRST_UNDATED) };
}

impl MemoryClock {
    /// A clock whose every answer is this second since 1970, which lies before the year 10000.
    pub fn fixed(second: u64) -> Self
        requires { second < FIRST_UNDATED }
        ensures { result ≡ record { moments = []; others = second } }
    {
        MemoryClock {
            moments: &[],
            others: second,
        }
    }

    /// A clock of these moments, the first of which counts where a request has several, and of one second for all
    /// other requests. All lie before the year 10000.
    pub fn of_moments(moments: &'static [MomentAt], others: u64) -> Self
        requires moments { IsTrue (list_all (λ moment. nat_lt moment.second FIRST_UNDATED)
            moments.now) }
        requires others { others < FIRST_UNDATED }
        ensures { result ≡ record { moments = moments.entry.now; others = others } }
    {
        MemoryClock { moments, others }
    }

    /// Another clock that tells the same. Takes no memory.
    pub fn again(&self) -> Self
        ensures { result ≡ self.now }
    {
        MemoryClock {
            moments: self.moments,
            others: self.others,
        }
    }
}

impl Clock for MemoryClock {
    ghost use Rattle.std.specs.Prelude.{Some};
    ghost use Rattle.tow_host.specs.Moments.{second_at};

    ghost table = { λ clock. Some (second_at clock) };

    fn at(&mut self, k: u32, j: u32) -> u64 {
        second_in(self.moments, self.others, k, j)
    }
}

/// The second of a request: that of its first moment, or the one for all others.
fn second_in(moments: &[MomentAt], others: u64, k: u32, j: u32) -> u64
    requires moments { IsTrue (list_all (λ moment. nat_lt moment.second FIRST_UNDATED) moments.now) }
    requires others { others < FIRST_UNDATED }
    ensures small { result < FIRST_UNDATED }
    ensures told { result ≡ second_of moments.now others k j }
{
    'moments: for moment in moments {
        if moment.k == k && moment.j == j {
            return moment.second;
        }
    }
    others
}
