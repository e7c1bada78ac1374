//! What is left of limits.

ghost use Rattle.std.specs.Prelude.{◌≡◌, false, []};

use crate::pass::Pass;
use std::marker::Model;

/// What is left of limits that were closed: the pass that closed them, in which the proofs read the
/// history of each. It takes no memory.
#[derive(Drop)]
pub struct Past {
    pub(crate) main: Option<Pass>,
    pub(crate) limits: usize,
}

impl Model for Past {
    ghost use Rattle.tow_pass.specs.Closing.{PastShown, past_shown};

    ghost Value = { PastShown };

    ghost view = { λ p. past_shown p.main p.limits };
}

impl Past {
    /// What is left where no limits were closed. It has no histories.
    pub fn empty() -> Past
        ensures { result ≡ record { some = false; histories = [] } }
    {
        Past {
            main: None,
            limits: 0,
        }
    }
}
