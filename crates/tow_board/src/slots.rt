//! Main's slots: one is opened for each new value, and freed at its end.
ghost use Rattle.std.specs.Prelude.{◌≡◌, ◌≢◌, ◌<◌, ℕ, true, false, ◌∷◌, Some, None};
ghost use Rattle.tow_model.specs.declared.account.Role.TheVariants.{Main};
ghost use Rattle.tow_board.specs.Answers.{IfSlot, IfFull, AllLive};
ghost use Rattle.tow_board.specs.Finds.{find, has};
ghost use Rattle.tow_board.specs.Views.{began, retired};

use crate::board::Board;
use crate::held::Held;
use crate::rules::{Ends, Looks, Opens};
use crate::seat::BoardSeat;

/// What the opening of a slot answers.
#[derive(Clone, Copy, Debug, PartialEq, Eq)]
pub enum Open {
    /// That slot is in main's hand now, and empty.
    Slot(u32),
    /// All slots are live.
    Full,
}

impl<T: Held> Board<T> {
    /// Makes the least free slot main's, empty.
    pub fn open_new(&self, seat: &mut BoardSeat<T>) -> Open
        requires table { seat.old.seat.table_id ≡ self.now.table.shared.table_id }
        requires main { seat.old.role ≡ Main }
        ensures kept { (seat.new.seat.table_id ≡ seat.old.seat.table_id) × (seat.new.role ≡ Main) }
        ensures full { IfFull result (AllLive self.now.slots seat.old.seat.me.0
            × (seat.new.seat.me ≡ seat.old.seat.me)) }
        ensures least { IfSlot result (λ slot. (slot < self.now.slots)
            × AllLive slot seat.old.seat.me.0
            × (has slot seat.old.seat.me.0.live ≡ false)) }
        ensures opened { IfSlot result (λ slot.
            seat.new.seat.me ≡ (began seat.old.seat.me.0 slot, (slot, None) ∷ seat.old.seat.me.1)) }
    {
        for slot in seat.live_below..self.slots() {
            if self.is_free(seat, slot) {
                self.open(seat, slot);
                seat.live_below = slot + 1;
                return Open::Slot(slot);
            }
        }
        seat.live_below = self.slots();
        Open::Full
    }

    fn is_free(&self, seat: &mut BoardSeat<T>, slot: u32) -> bool
        requires table { seat.old.seat.table_id ≡ self.now.table.shared.table_id }
        requires main { seat.old.role ≡ Main }
        requires slot { slot < self.now.slots }
        ensures kept { (seat.new.seat.table_id ≡ seat.old.seat.table_id) × (seat.new.role ≡ Main) }
        ensures same { seat.new.seat.me ≡ seat.old.seat.me }
        ensures free { (result ≡ true → has slot seat.old.seat.me.0.live ≡ false)
            × (result ≡ false → has slot seat.old.seat.me.0.live ≡ true) }
    {
        self.table
            .shared
            .load::<Looks>(&mut seat.seat, slot as usize)
            == 0
    }

    fn open(&self, seat: &mut BoardSeat<T>, slot: u32)
        requires table { seat.old.seat.table_id ≡ self.now.table.shared.table_id }
        requires main { seat.old.role ≡ Main }
        requires slot { slot < self.now.slots }
        requires free { has slot seat.old.seat.me.0.live ≡ false }
        ensures kept { (seat.new.seat.table_id ≡ seat.old.seat.table_id) × (seat.new.role ≡ Main) }
        ensures opened { seat.new.seat.me ≡
            (began seat.old.seat.me.0 slot, (slot, None) ∷ seat.old.seat.me.1) }
    {
        self.table
            .shared
            .store::<Opens>(&mut seat.seat, slot as usize, 1)
    }

    /// Frees an empty slot in main's hand.
    pub fn retire(&self, seat: &mut BoardSeat<T>, slot: u32)
        requires table { seat.old.seat.table_id ≡ self.now.table.shared.table_id }
        requires main { seat.old.role ≡ Main }
        requires empty { find slot seat.old.seat.me.1 ≡ Some None }
        ensures kept { (seat.new.seat.table_id ≡ seat.old.seat.table_id) × (seat.new.role ≡ Main) }
        ensures view { seat.new.seat.me.0 ≡ retired seat.old.seat.me.0 slot }
        ensures slots { (q : ℕ) → q ≢ slot → find q seat.new.seat.me.1 ≡ find q seat.old.seat.me.1 }
    {
        seat.lower(slot);
        seat.bring(slot);
        self.table
            .shared
            .store::<Ends>(&mut seat.seat, slot as usize, 0)
    }
}
