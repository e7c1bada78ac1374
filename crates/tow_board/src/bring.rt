ghost use Rattle.std.specs.Prelude.{◌≡◌};
ghost use Rattle.tow_board.specs.Finds.{brought};

use atomic_table::Seat;

/// The slot goes before the others that the seat holds. It does nothing at run time.
pub(crate) fn bring<S, V>(seat: &mut Seat<S, V>, slot: u64)
    ensures { (seat.new.table_id ≡ seat.old.table_id) × (seat.new.id ≡ seat.old.id)
        × (seat.new.me ≡ (seat.old.me.0, brought slot seat.old.me.1)) }
{}
