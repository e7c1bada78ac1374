//! The rule of a board's table, and what each of its steps tells the seat that makes it.
use crate::held::Held;
use crate::view::View;
use atomic_table::{Join, Play, Split, TableRule};
use std::marker::{Brand, PhantomData};

/// The rule of a board of T, as `BoardRule` says it.
pub struct Rules<T> {
    held: PhantomData<T>,
}

impl<T: Held> TableRule<Option<T>, View<T::Origin, T::Mark>, u32> for Rules<T> {
    ghost use Rattle.tow_board.specs.Rule.{BoardRule, kind_of};
    ghost use Rattle.tow_board.specs.Views.{main_view};

    ghost holds = { λ loops. BoardRule
        (kind_of T.fits T.origin T.number T.loop_of T.mark T.fresh T.follows T.tells) loops };

    ghost first = { main_view };
}

/// A claim.
pub struct Claims<T> {
    held: PhantomData<T>,
}

impl<T: Held> Play<Option<T>, View<T::Origin, T::Mark>> for Claims<T> {
    ghost use Rattle.tow_board.specs.Steps.{claimed};
    ghost use Rattle.tow_board.specs.Rule.{kind_of};

    ghost then = { claimed
        (kind_of T.fits T.origin T.number T.loop_of T.mark T.fresh T.follows T.tells) };
}

/// A publishing.
pub struct Publishes<T> {
    held: PhantomData<T>,
}

impl<T: Held> Play<Option<T>, View<T::Origin, T::Mark>> for Publishes<T> {
    ghost use Rattle.tow_board.specs.Steps.{published};
    ghost use Rattle.tow_board.specs.Rule.{kind_of};

    ghost then = { published
        (kind_of T.fits T.origin T.number T.loop_of T.mark T.fresh T.follows T.tells) };
}

/// A load before a claim.
pub struct LooksFor;

impl<T, O, M> Play<Option<T>, View<O, M>> for LooksFor {
    ghost use Rattle.tow_board.specs.Steps.{looked_for};

    ghost then = { looked_for };
}

/// Main's load of a slot's word.
pub struct Looks;

impl<T, O, M> Play<Option<T>, View<O, M>> for Looks {
    ghost use Rattle.tow_board.specs.Steps.{looked};

    ghost then = { looked };
}

/// The opening of a slot.
pub struct Opens;

impl<T, O, M> Play<Option<T>, View<O, M>> for Opens {
    ghost use Rattle.tow_board.specs.Steps.{opened};

    ghost then = { opened };
}

/// The freeing of a slot.
pub struct Ends;

impl<T, O, M> Play<Option<T>, View<O, M>> for Ends {
    ghost use Rattle.tow_board.specs.Steps.{ended};

    ghost then = { ended };
}

/// The role that a split gives. The call picks it.
pub trait Given {
    ghost use Rattle.std.specs.Prelude.{ℕ};

    ghost role: { ℕ };
}

impl Given for Brand {
    ghost role = { 0 };
}

/// A split.
pub struct Gives<N> {
    role: PhantomData<N>,
}

impl<N: Given, O, M> Split<View<O, M>> for Gives<N> {
    ghost use Rattle.tow_board.specs.Views.{gave, newcomer};

    ghost left = { λ v. gave v N.role };

    ghost right = { λ v. newcomer v N.role };
}

/// A join.
pub struct Joins;

impl<O, M> Join<View<O, M>> for Joins {
    ghost use Rattle.tow_board.specs.Views.{joined_with, spent_view};

    ghost both = { joined_with };

    ghost spent = { spent_view };
}
