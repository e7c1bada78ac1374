//! The board: making it, giving and taking back seats, ending it.
ghost use Rattle.std.specs.Prelude.{◌≡◌, ◌≢◌, ◌<◌, ◌≤◌, ℕ, true, false, [], IfOk, replicate};
ghost use Rattle.tow_model.specs.declared.account.Role.TheVariants.{Main};
ghost use Rattle.tow_board.specs.Finds.{has};
ghost use Rattle.tow_board.specs.Owners.{role_number};
ghost use Rattle.tow_board.specs.Views.{main_view, gave, newcomer, joined_with};

use crate::held::Held;
use crate::rules::{Given, Gives, Joins, Rules};
use crate::seat::BoardSeat;
use crate::view::View;
use atomic_table::Table;
use std::alloc::{AllocError, Global};
use std::marker::Brand;
use tow_model::{NoMemory, Role};

/// Slots that change hands between threads without a lock: each has a word, which says who has it,
/// and a place for one value. All calls but `new` take no memory and wait for nobody.
#[derive(Drop)]
pub struct Board<T: Held> {
    pub(crate) table: Table<Option<T>, View<T::Origin, T::Mark>, u32, Rules<T>, Global>,
    slots: u32,
    loops: u32,
    ghost sized: { (table.shared.table_id.words ≡ slots) × (table.shared.table_id.slots ≡ slots)
        × (table.shared.key ≡ loops) × (0 < slots) },
}

fn zeros(alloc: Global, count: usize) -> Result<Vec<u64>, AllocError>
    ensures { IfOk result (λ v. v.items ≡ replicate count 0) }
{
    let mut words = Vec::new(alloc);
    for _ in 0..count {
        words.push(0)?;
    }
    Ok(words)
}

impl<T: Held> Board<T> {
    /// A board of free slots, for loops with numbers below `loops`, and main's seat. Takes memory for
    /// all slots.
    pub fn new(alloc: Global, slots: u32, loops: u32) -> Result<(Board<T>, BoardSeat<T>), NoMemory>
        requires slots { 0 < slots }
        requires loops { (0 < loops) × (loops ≤ 16) }
        ensures board { IfOk result (λ r. (r.0.slots ≡ slots) × (r.0.loops ≡ loops)) }
        ensures main { IfOk result (λ r. (r.1.role ≡ Main) × (r.1.seat.me ≡ (main_view loops, []))
            × (r.1.seat.table_id ≡ r.0.table.shared.table_id)) }
    {
        let words = zeros(alloc, slots as usize)?;
        let (table, seat) = Table::vacant(alloc, &words, slots as usize, &loops)?;
        Ok((
            Board {
                table,
                slots,
                loops,
            },
            BoardSeat {
                seat,
                role: Role::Main,
                live_below: 0,
            },
        ))
    }

    /// How many slots it has.
    pub fn slots(&self) -> u32
        ensures { result ≡ self.now.slots }
    {
        self.slots
    }

    /// How many loops it is for.
    pub fn loops(&self) -> u32
        ensures { result ≡ self.now.loops }
    {
        self.loops
    }

    fn split_as<N: Given>(&self, seat: &mut BoardSeat<T>, role: Role) -> BoardSeat<T>
        requires picked { N.role ≡ role_number role }
        requires table { seat.old.seat.table_id ≡ self.now.table.shared.table_id }
        requires main { seat.old.role ≡ Main }
        requires new { (role ≢ Main) × (has (role_number role) seat.old.seat.me.0.given ≡ false) }
        ensures kept { (seat.new.seat.table_id ≡ seat.old.seat.table_id) × (seat.new.role ≡ Main) }
        ensures main { seat.new.seat.me ≡
            (gave seat.old.seat.me.0 (role_number role), seat.old.seat.me.1) }
        ensures table { result.seat.table_id ≡ self.now.table.shared.table_id }
        ensures role { result.role ≡ role }
        ensures other { result.seat.me ≡ (newcomer seat.old.seat.me.0 (role_number role), []) }
    {
        BoardSeat {
            seat: self.table.shared.split_seat::<Gives<N>>(&mut seat.seat),
            role,
            live_below: 0,
        }
    }

    /// A seat for a role that no seat had.
    pub fn split(&self, seat: &mut BoardSeat<T>, role: Role) -> BoardSeat<T>
        requires table { seat.old.seat.table_id ≡ self.now.table.shared.table_id }
        requires main { seat.old.role ≡ Main }
        requires new { (role ≢ Main) × (has (role_number role) seat.old.seat.me.0.given ≡ false) }
        ensures kept { (seat.new.seat.table_id ≡ seat.old.seat.table_id) × (seat.new.role ≡ Main) }
        ensures main { seat.new.seat.me ≡
            (gave seat.old.seat.me.0 (role_number role), seat.old.seat.me.1) }
        ensures table { result.seat.table_id ≡ self.now.table.shared.table_id }
        ensures role { result.role ≡ role }
        ensures other { result.seat.me ≡ (newcomer seat.old.seat.me.0 (role_number role), []) }
    {
        self.split_as::<Brand>(seat, role)
    }

    /// Ends a seat that holds nothing. Main knows from then on what that seat knew.
    pub fn join(&self, seat: &mut BoardSeat<T>, other: BoardSeat<T>)
        requires table { (seat.old.seat.table_id ≡ self.now.table.shared.table_id)
            × (other.seat.table_id ≡ self.now.table.shared.table_id) }
        requires main { seat.old.role ≡ Main }
        requires empty { other.seat.me.0.hand ≡ [] }
        ensures kept { (seat.new.seat.table_id ≡ seat.old.seat.table_id) × (seat.new.role ≡ Main) }
        ensures main { seat.new.seat.me ≡
            (joined_with seat.old.seat.me.0 other.seat.me.0, seat.old.seat.me.1) }
    {
        let BoardSeat {
            seat: spent,
            role: _,
            live_below: _,
        } = other;
        self.table.shared.join_seat::<Joins>(&mut seat.seat, spent);
    }

    /// Ends the board, where main is the only seat and no slot is live.
    pub fn close(self, seat: BoardSeat<T>)
        requires table { seat.seat.table_id ≡ self.table.shared.table_id }
        requires main { seat.role ≡ Main }
        requires joined { (r : ℕ) → has r seat.seat.me.0.given ≡ true
            → has r seat.seat.me.0.joined ≡ true }
        requires free { seat.seat.me.0.live ≡ [] }
    {}
}
