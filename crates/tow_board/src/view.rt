//! What a seat knows of the board.
ghost use Rattle.std.specs.Prelude.{ℕ, List, Option};
ghost use Rattle.std.specs.Borrow.{ftrue};
ghost use Rattle.std.specs.Coded.{coded_ℕ, coded×, coded_list, coded_option};

use std::marker::{Model, PhantomData};

/// What a seat knows, over origins O and marks M. Contracts alone see it; no value of it is made.
pub struct View<O, M> {
    of: PhantomData<(O, M)>,
    // The number of its role; 0 if it is spent.
    pub ghost role: { ℕ },
    pub ghost loops: { ℕ },
    // The slots in its hand, each with the origin and the mark that it was claimed with; nothing if
    // main opened it.
    pub ghost hand: { List (ℕ × Option (O × M)) } by { coded_list (coded× coded_ℕ (coded_option (coded× O.code M.code))) },
    // The slot that it looked at last for a claim, and the word that it found there.
    pub ghost seen: { Option (ℕ × ℕ) } by { coded_option (coded× coded_ℕ coded_ℕ) },
    // Of a loop: each number that it published, with the origin and the mark of the last time. Main
    // has those of the loops that it joined.
    pub ghost posted: { List (ℕ × (O × M)) } by { coded_list (coded× coded_ℕ (coded× O.code M.code)) },
    // Of a worker: each number with each fault that its mark told when it was published and not when
    // it was claimed. Main has those of the workers that it joined.
    pub ghost told: { List (ℕ × ℕ) } by { coded_list (coded× coded_ℕ coded_ℕ) },
    // Of main alone: the live slots, each with the origin that it published there; the roles that it
    // gave; those of them that it joined.
    pub ghost live: { List (ℕ × Option O) } by { coded_list (coded× coded_ℕ (coded_option O.code)) },
    pub ghost given: { List (ℕ × ℕ) } by { coded_list (coded× coded_ℕ coded_ℕ) },
    pub ghost joined: { List (ℕ × ℕ) } by { coded_list (coded× coded_ℕ coded_ℕ) },
    // Of main alone: the numbers of all that it published, the last one first, and the origin and
    // mark of all that it claimed, by number.
    pub ghost numbers: { List ℕ } by { coded_list coded_ℕ },
    pub ghost kept: { List (ℕ × (O × M)) } by { coded_list (coded× coded_ℕ (coded× O.code M.code)) },
}

impl<O, M> Model for View<O, M> {
    ghost also_owns = { λ _. ftrue };
}
