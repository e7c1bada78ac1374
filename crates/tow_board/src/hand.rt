//! Slots that pass from hand to hand: each claimed under its code, its value taken, another put
//! there, and published.
ghost use Rattle.std.specs.Prelude.{◌≡◌, ◌≢◌, ◌+◌, ◌<◌, ℕ, true, false, ◌∷◌, Some, None};
ghost use Rattle.tow_board.specs.Answers.{IfYours, IfMissed, IfToLoop, MayPublish, IsAfterPublish, after_claim};
ghost use Rattle.tow_board.specs.Finds.{find, has};
ghost use Rattle.tow_board.specs.Owners.{code_of, to_for};
ghost use Rattle.tow_board.specs.Steps.{ComesBack};
ghost use Rattle.tow_board.specs.Views.{saw};

use crate::board::Board;
use crate::held::Held;
use crate::owner::To;
use crate::rules::{Claims, LooksFor, Publishes};
use crate::seat::BoardSeat;

/// What a claim answers.
#[derive(Clone, Copy, Debug, PartialEq, Eq)]
pub enum Claim {
    /// The slot is in the claimer's hand now, with its value.
    Yours,
    /// The slot had that word, which is another one.
    Missed(u64),
}

impl<T: Held> Board<T> {
    /// Takes a slot whose value waits under the code that this seat's role may claim. A miss is one
    /// load of its word.
    pub fn claim(&self, seat: &mut BoardSeat<T>, slot: u32, code: u64) -> Claim
        requires table { seat.old.seat.table_id ≡ self.now.table.shared.table_id }
        requires slot { slot < self.now.slots }
        requires code { code ≡ code_of (to_for seat.old.role) }
        ensures kept { (seat.new.seat.table_id ≡ seat.old.seat.table_id)
            × (seat.new.role ≡ seat.old.role) }
        ensures missed { IfMissed result (λ word. (word ≢ code)
            × (seat.new.seat.me ≡ (saw seat.old.seat.me.0 slot word, seat.old.seat.me.1))) }
        ensures yours { IfYours result ((x : T)
            × (seat.new.seat.me.1 ≡ (slot, Some x) ∷ seat.old.seat.me.1)
            × (has slot seat.old.seat.me.1 ≡ false)
            × T.fits seat.old.seat.me.0.loops (to_for seat.old.role) x
            × (seat.new.seat.me.0
            ≡ after_claim T.number seat.old.role (saw seat.old.seat.me.0 slot code)
            slot (T.origin x, T.mark x))
            × ComesBack T.number T.fresh T.follows seat.old.seat.me.0 (T.origin x, T.mark x)) }
    {
        let seen = self
            .table
            .shared
            .load::<LooksFor>(&mut seat.seat, slot as usize);
        if seen != code {
            return Claim::Missed(seen);
        }
        self.exchange_word(seat, slot, code)
    }

    // The claim itself, where the code was seen.
    fn exchange_word(&self, seat: &mut BoardSeat<T>, slot: u32, code: u64) -> Claim
        requires table { seat.old.seat.table_id ≡ self.now.table.shared.table_id }
        requires slot { slot < self.now.slots }
        requires code { code ≡ code_of (to_for seat.old.role) }
        ensures kept { (seat.new.seat.table_id ≡ seat.old.seat.table_id)
            × (seat.new.role ≡ seat.old.role) }
        ensures missed { IfMissed result (λ word. (word ≢ code)
            × (seat.new.seat.me ≡ (saw seat.old.seat.me.0 slot word, seat.old.seat.me.1))) }
        ensures yours { IfYours result ((x : T)
            × (seat.new.seat.me.1 ≡ (slot, Some x) ∷ seat.old.seat.me.1)
            × (has slot seat.old.seat.me.1 ≡ false)
            × T.fits seat.old.seat.me.0.loops (to_for seat.old.role) x
            × (seat.new.seat.me.0
            ≡ after_claim T.number seat.old.role seat.old.seat.me.0 slot (T.origin x, T.mark x))
            × ComesBack T.number T.fresh T.follows seat.old.seat.me.0 (T.origin x, T.mark x)) }
    {
        let found = self
            .table
            .shared
            .compare_exchange::<Claims<T>>(&mut seat.seat, slot as usize, code, 1);
        if found == code {
            Claim::Yours
        } else {
            Claim::Missed(found)
        }
    }

    /// Takes the value out of a slot in the hand, and adds the seat's role to its hops.
    pub fn take(&self, seat: &mut BoardSeat<T>, slot: u32) -> T
        requires table { seat.old.seat.table_id ≡ self.now.table.shared.table_id }
        requires value { (x : T) × (find slot seat.old.seat.me.1 ≡ Some (Some x))
            × (0 < T.spare x) }
        ensures kept { (seat.new.seat.table_id ≡ seat.old.seat.table_id)
            × (seat.new.role ≡ seat.old.role) × (seat.new.seat.me.0 ≡ seat.old.seat.me.0) }
        ensures value { (x : T) × (find slot seat.old.seat.me.1 ≡ Some (Some x))
            × T.came x seat.old.role result
            × (T.origin result ≡ T.origin x) × (T.mark result ≡ T.mark x) }
        ensures slots { (find slot seat.new.seat.me.1 ≡ Some None)
            × ((q : ℕ) → q ≢ slot → find q seat.new.seat.me.1 ≡ find q seat.old.seat.me.1) }
    {
        let role = seat.role;
        let Some(mut value) = seat.exchange(&self.table.shared, slot, None) else {
            unreachable!()
        };
        value.arrived(role);
        value
    }

    /// Puts a value into an empty slot in the hand.
    pub fn put(&self, seat: &mut BoardSeat<T>, slot: u32, value: T)
        requires table { seat.old.seat.table_id ≡ self.now.table.shared.table_id }
        requires empty { find slot seat.old.seat.me.1 ≡ Some None }
        ensures kept { (seat.new.seat.table_id ≡ seat.old.seat.table_id)
            × (seat.new.role ≡ seat.old.role) × (seat.new.seat.me.0 ≡ seat.old.seat.me.0) }
        ensures slots { (find slot seat.new.seat.me.1 ≡ Some (Some value))
            × ((q : ℕ) → q ≢ slot → find q seat.new.seat.me.1 ≡ find q seat.old.seat.me.1) }
    {
        let None = seat.exchange(&self.table.shared, slot, Some(value)) else {
            unreachable!()
        };
    }

    /// Lets a slot in the hand wait for `to`, with the value that was put there.
    pub fn publish(&self, seat: &mut BoardSeat<T>, slot: u32, to: To)
        requires table { seat.old.seat.table_id ≡ self.now.table.shared.table_id }
        requires to { IfToLoop to (λ number. number < self.now.loops) }
        requires value { (x : T) × (find slot seat.old.seat.me.1 ≡ Some (Some x))
            × T.fits seat.old.seat.me.0.loops to x
            × MayPublish T.number T.fresh T.follows T.tells
            seat.old.role seat.old.seat.me.0 slot (T.origin x, T.mark x) }
        ensures kept { (seat.new.seat.table_id ≡ seat.old.seat.table_id)
            × (seat.new.role ≡ seat.old.role) }
        ensures view { (x : T) × (find slot seat.old.seat.me.1 ≡ Some (Some x))
            × IsAfterPublish T.number T.tells
            seat.old.role seat.old.seat.me.0 slot (T.origin x, T.mark x) seat.new.seat.me.0 }
        ensures slots { (q : ℕ) → q ≢ slot → find q seat.new.seat.me.1 ≡ find q seat.old.seat.me.1 }
    {
        let code = to.code();
        seat.bring(slot);
        self.table
            .shared
            .store::<Publishes<T>>(&mut seat.seat, slot as usize, code)
    }
}
