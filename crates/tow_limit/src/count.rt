//! A count of those inside a limit.

ghost use Rattle.std.specs.Prelude.{ℕ, ◌≡◌, ◌-◌, ◌<◌, ◌≤◌, ◌↔◌, List, [], ◌∷◌, ◌++◌};
ghost use Rattle.tow_history.specs.declared.entry.Entry.{Entry};
ghost use Rattle.tow_model.specs.declared.account.Verdict.{Verdict};
ghost use Rattle.tow_model.specs.declared.account.What.{What};
ghost use Rattle.tow_history.specs.Legal.{entry_of, state_after, times};
ghost use Rattle.tow_limit.specs.Shows.{Shows, entered};

use std::marker::Model;
use tow_model::Verdict;

/// How many exchanges are inside a limit, of at most `most`. No call takes memory.
#[derive(Debug, Drop)]
pub struct Count {
    most: u32,
    inside: u32,
}

impl Model for Count {
    ghost use Rattle.std.specs.Prelude.{◌≤◌};
    ghost use Rattle.tow_limit.specs.Shows.{Places};

    ghost Value = { Places };

    ghost view = { λ c. record { most = c.most; inside = c.inside } };

    ghost invariant = { λ c. c.inside ≤ c.most };
}

impl Count {
    /// A limit that admits `most` at a time, with nobody inside.
    pub fn new(most: u32) -> Count
        ensures empty { result ≡ record { most = most; inside = 0 } }
        ensures history { Shows result [] }
    {
        Count { most, inside: 0 }
    }

    /// What an exchange is answered that would enter: `Refused` exactly if `most` are inside.
    pub fn enter(&mut self) -> Verdict
        ensures refused { (result ≡ Verdict.Refused) ↔ (self.old.inside ≡ self.old.most) }
        ensures history { (h : List Entry) (k l j : ℕ) → Shows self.old h
            → Shows self.new (h ++ entry_of k l j (What.Enter result) ∷ []) }
        ensures after { self.new ≡ entered self.old result }
    {
        if self.inside < self.most {
            self.inside += 1;
            Verdict::Admitted
        } else {
            Verdict::Refused
        }
    }

    /// An exchange that is inside leaves.
    pub fn leave(&mut self)
        requires { 0 < self.old.inside }
        ensures history { (h : List Entry) (k l j : ℕ) → Shows self.old h
            → 0 < times (k, j) (state_after h).inside
            → Shows self.new (h ++ entry_of k l j What.Leave ∷ []) }
        ensures left { self.new ≡ record self.old { inside = self.old.inside - 1 } }
    {
        self.inside -= 1;
    }

    /// How many are inside.
    pub fn inside(&self) -> u32
        ensures inside { result ≡ self.now.inside }
        ensures few { result ≤ self.now.most }
    {
        self.inside
    }
}
