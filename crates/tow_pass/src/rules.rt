//! The rule of the table, and what its steps tell.

use crate::view::View;
use atomic_table::{Join, Play, Split, TableRule};
use std::marker::{Brand, PhantomData};
use tow_model::Bound;

/// The rule of the limits' words and the passes. Its key is the list of bounds.
pub struct Rules;

impl<S> TableRule<S, View, Vec<Bound>> for Rules {
    ghost use Rattle.tow_pass.specs.Rule.{PassRule};
    ghost use Rattle.tow_pass.specs.Views.{opening_view};

    ghost holds = { λ bounds. PassRule bounds.items };

    ghost first = { λ _. opening_view };
}

/// What a step is for: the limit, how many it admits, and the request. The call picks it.
pub trait Asked {
    ghost use Rattle.std.specs.Prelude.{ℕ};

    ghost limit: { ℕ };

    ghost most: { ℕ };

    ghost request: { ℕ };
}

impl Asked for Brand {
    ghost limit = { 0 };

    ghost most = { 0 };

    ghost request = { 0 };
}

/// A compare and exchange that admits.
pub struct Admits<N> {
    asked: PhantomData<N>,
}

impl<S, N: Asked> Play<S, View> for Admits<N> {
    ghost use Rattle.tow_pass.specs.Tells.{admitted};

    ghost then = { admitted N.limit N.request };
}

/// A load that refuses if it finds the limit full.
pub struct Refuses<N> {
    asked: PhantomData<N>,
}

impl<S, N: Asked> Play<S, View> for Refuses<N> {
    ghost use Rattle.tow_pass.specs.Tells.{refused};

    ghost then = { refused N.most N.limit N.request };
}

/// An addition that leaves.
pub struct Leaves<N> {
    asked: PhantomData<N>,
}

impl<S, N: Asked> Play<S, View> for Leaves<N> {
    ghost use Rattle.tow_pass.specs.Tells.{went};

    ghost then = { went N.limit N.request };
}

/// Main's pass gives the next number.
pub struct Issues;

impl Split<View> for Issues {
    ghost use Rattle.tow_pass.specs.Views.{issues, newcomer};

    ghost left = { issues };

    ghost right = { newcomer };
}

/// Main's pass keeps the calls of another.
pub struct Collects;

impl Join<View> for Collects {
    ghost use Rattle.tow_pass.specs.Views.{keeps_calls, spent_view};

    ghost both = { keeps_calls };

    ghost spent = { spent_view };
}

/// What a close is for: the bounds of its limits. The call picks it.
pub trait Closing {
    ghost use Rattle.std.specs.Prelude.{List};
    ghost use Rattle.tow_model.specs.declared.account.Bound.{Bound};

    ghost bounds: { List Bound };
}

impl Closing for Brand {
    ghost use Rattle.std.specs.Prelude.{[]};

    ghost bounds = { [] };
}

/// A load that shows the histories.
pub struct Closes<N> {
    closing: PhantomData<N>,
}

impl<S, N: Closing> Play<S, View> for Closes<N> {
    ghost use Rattle.tow_pass.specs.Closing.{closes};

    ghost then = { closes N.bounds };
}
