//! A pass.

use crate::view::View;
use atomic_table::Seat;
use std::marker::Model;

/// What a connection enters and leaves limits with: its own calls, and no other pass has them. It
/// takes no bytes. Main's pass keeps the calls of those that were collected.
#[derive(Drop)]
pub struct Pass {
    pub(crate) seat: Seat<(), View>,
}

impl Model for Pass {
    ghost use Rattle.std.specs.Prelude.{◌≡◌, []};
    ghost use Rattle.tow_pass.specs.Shown.{PassShown};

    ghost Value = { PassShown };

    ghost view = { λ p. record { limits = p.seat.table_id; view = p.seat.me.0 } };

    ghost invariant = { λ p. p.seat.me.1 ≡ [] };
}
