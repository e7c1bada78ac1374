//! A seat at a board.
ghost use Rattle.std.specs.Prelude.{◌≡◌, ◌≢◌, ◌<◌, ◌≤◌, ℕ, true, ◌∷◌, Some, Option};
ghost use Rattle.tow_board.specs.Finds.{find, has, distinct};
ghost use Rattle.tow_board.specs.Owners.{role_number};
ghost use Rattle.atomic_table.specs.Table.{rest};

use crate::bring::bring;
use crate::held::Held;
use crate::view::View;
use atomic_table::{Seat, Shared, TableRule};
use tow_model::Role;

/// The right to step at a board under one role, and the slots in its hand. Contracts see what it
/// knows as `seat.me.0`, and the slots in its hand, each with what lies in it, as `seat.me.1`.
#[derive(Drop)]
pub struct BoardSeat<T: Held> {
    pub seat: Seat<Option<T>, View<T::Origin, T::Mark>>,
    pub role: Role,
    // Main's: all slots below it are live, so the search for a free one begins here.
    pub(crate) live_below: u32,
    pub ghost role_is: { seat.me.0.role ≡ role_number role },
    pub ghost carries: { (k : ℕ) → has k seat.me.1 ≡ has k seat.me.0.hand },
    pub ghost once: { distinct seat.me.1 ≡ true },
    pub ghost all_live: { (k : ℕ) → k < live_below → has k seat.me.0.live ≡ true },
    pub ghost within: { (k : ℕ) → has k seat.me.0.hand ≡ true → k < seat.table_id.slots },
}

impl<T: Held> BoardSeat<T> {
    // The slot goes before the others.
    pub(crate) fn bring(&mut self, slot: u32)
        requires { has slot self.old.seat.me.1 ≡ true }
        ensures same { (self.new.seat.table_id ≡ self.old.seat.table_id) × (self.new.seat.id ≡ self.old.seat.id)
            × (self.new.role ≡ self.old.role) × (self.new.live_below ≡ self.old.live_below)
            × (self.new.seat.me.0 ≡ self.old.seat.me.0) }
        ensures first { (y : Option T) × (find slot self.old.seat.me.1 ≡ Some y)
            × (self.new.seat.me.1 ≡ (slot, y) ∷ rest self.new.seat.me.1) }
        ensures others { (q : ℕ) → find q self.new.seat.me.1 ≡ find q self.old.seat.me.1 }
    {
        bring(&mut self.seat, slot as u64);
    }

    // The slot will be free: the search for a free one begins there at the latest.
    pub(crate) fn lower(&mut self, slot: u32)
        ensures same { (self.new.seat.table_id ≡ self.old.seat.table_id) × (self.new.seat.id ≡ self.old.seat.id)
            × (self.new.role ≡ self.old.role) × (self.new.seat.me ≡ self.old.seat.me) }
        ensures low { self.new.live_below ≤ slot }
    {
        self.live_below = self.live_below.min(slot);
    }

    // A plain read and write of a slot in the hand.
    pub(crate) fn exchange<K, P: TableRule<Option<T>, View<T::Origin, T::Mark>, K>>(
        &mut self,
        table: &Shared<Option<T>, View<T::Origin, T::Mark>, K, P>,
        slot: u32,
        new: Option<T>,
    ) -> Option<T>
        requires table { self.old.seat.table_id ≡ table.now.table_id }
        requires slot { has slot self.old.seat.me.1 ≡ true }
        ensures same { (self.new.seat.table_id ≡ self.old.seat.table_id) × (self.new.seat.id ≡ self.old.seat.id)
            × (self.new.role ≡ self.old.role) × (self.new.live_below ≡ self.old.live_below)
            × (self.new.seat.me.0 ≡ self.old.seat.me.0) }
        ensures slots { (find slot self.old.seat.me.1 ≡ Some result)
            × (find slot self.new.seat.me.1 ≡ Some new)
            × ((q : ℕ) → q ≢ slot → find q self.new.seat.me.1 ≡ find q self.old.seat.me.1) }
    {
        self.bring(slot);
        table.exchange(&mut self.seat, slot as usize, new)
    }
}
